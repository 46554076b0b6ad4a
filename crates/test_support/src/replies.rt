//! All-call replies of any address.
use std::alloc::{AllocError, Global};

// The 24 parity bits of a frame of 56 bits, of which these are the first 32.
fn parity(first: u64) -> u64 {
    let mut rest = (first & 0xFFFF_FFFF) << 24;
    for place in (0..32u32).rev() {
        if rest >> (place + 24) & 1 == 1 {
            rest ^= 0x1FF_F409 << place;
        }
    }
    rest
}

/// The lines of `count` all-call replies to an interrogator code, each of the address after the one before. The first is
/// of `address`.
pub fn replies_to(alloc: Global, code: u8, address: u16, count: u16) -> Result<String, AllocError> {
    let mut lines = String::new(alloc);
    for i in 0..count {
        let first = 0x5D00_0000 + u64::from(address) + u64::from(i);
        let last = parity(first) ^ u64::from(code);
        lines.push_str(format!(in alloc; "*{first:08X}{last:06X};\n")?.as_str())?;
    }
    Ok(lines)
}

/// The same to no interrogator code.
pub fn all_call_replies(alloc: Global, address: u16, count: u16) -> Result<String, AllocError> {
    replies_to(alloc, 0, address, count)
}
