//! Whose frame it is: the claim that parity and format allow.
ghost use Rattle.std.specs.Prelude.{◌≡◌, ◌^◌, ◌<◌, ◌==◌, if◌then◌else◌, IfOk, length};
ghost use Rattle.std.specs.Bool.{OnTrue};
ghost use Rattle.modes_frame.specs.Claims.{claim_of, address_field, control_field, is_announced_format, is_overlaid_format, is_squitter_frame};
ghost use Rattle.modes_frame.specs.Frames.{df_of};
ghost use Rattle.modes_frame.specs.declared.claims.CheckFault.TheVariants.{BadParity, Unsupported};

use crate::claims::{CheckFault, Claim};
use crate::frame::Frame;
use crate::parity_by_place::remainder_by_place;

/// Whom a frame speaks for, by its downlink format and the remainder of the whole frame (ICAO Annex 10 Volume IV,
/// 3.1.2.3.3). The address is below 2^24. [`CheckFault`] lists when a frame speaks for nobody.
#[inline(always)]
#[tactic(auto, unfolding(crate::specs::Claims::claim_of))]
pub fn claim(frame: &Frame) -> Result<Claim, CheckFault>
    ensures value { result ≡ claim_of frame.now }
    ensures below { IfOk result (λ claim. claim.address < 2 ^ 24) }
{
    // By numbers, as the processor would often foresee a branch on the format wrongly.
    let df = frame.df();
    let remainder = remainder_by_place(frame);
    let remainders = remainders(df);
    if remainder >= remainders || (df == 18 && control(frame) != 0) {
        return Err(refused(frame, remainder));
    }
    let is_overlaid = remainders == OVERLAID;
    let announced = announced_address(frame);
    // No aircraft is given the address of 24 zeros or of 24 ones (Volume III, Part I, Chapter 9).
    if (announced == 0 || announced == 0xFF_FFFF) && !is_overlaid {
        return Err(CheckFault::Unassigned(announced));
    }
    Ok(Claim {
        address: if is_overlaid { remainder } else { announced },
        overlaid: is_overlaid | (remainder != 0),
    })
}

// How many remainders there are: any is an address that was laid over the parity.
const OVERLAID: u32 = 0x100_0000;

// How many remainders a frame of each format can have, from 0 on, where its control field is 0.
static REMAINDERS: [u32; 32] = [
    OVERLAID, 0, 0, 0, OVERLAID, OVERLAID, 0, 0, 0, 0, 0, 128, 0, 0, 0, 0, OVERLAID, 1, 1, 0,
    OVERLAID, OVERLAID, 0, 0, 0, 0, 0, 0, 0, 0, 0, 0,
];

#[inline(always)]
fn remainders(df: u8) -> u32
    requires { df < 32 }
    ensures { result ≡ (if is_overlaid_format df then 2 ^ 24 else if df == 11 then 128
        else if is_announced_format df 0 then 1 else 0) }
{
    REMAINDERS[usize::from(df)]
}

// Why a frame that can't have this remainder speaks for nobody.
#[cold]
fn refused(frame: &Frame, remainder: u32) -> CheckFault
    ensures { let df = df_of frame.now in
        result ≡ (if is_announced_format df (control_field frame.now) then BadParity remainder else Unsupported df) }
{
    match frame.df() {
        11 => CheckFault::BadParity(remainder),
        _ if is_squitter(frame) => CheckFault::BadParity(remainder),
        df => CheckFault::Unsupported(df),
    }
}

/// Whether a frame is an extended squitter that announces its sender's address (ICAO Annex 10 Volume IV, 3.1.2.8.6 and
/// 3.1.2.8.7): DF 17, or DF 18 with control field 0 (bits 6 to 8), from a device that is no transponder. Such a frame
/// has 14 bytes.
#[inline(always)]
pub fn is_squitter(frame: &Frame) -> bool
    ensures value { result ≡ is_squitter_frame frame.now }
    ensures long { OnTrue result (length frame.now ≡ 14) }
{
    match frame.df() {
        17 => true,
        18 => control(frame) == 0,
        _ => false,
    }
}

// The control field: the number in bits 6 to 8.
fn control(frame: &Frame) -> u8
    ensures { result ≡ control_field frame.now }
{
    frame.bytes()[0] % 8
}

// The announced address: the number in bits 9 to 32.
fn announced_address(frame: &Frame) -> u32
    ensures value { result ≡ address_field frame.now }
    ensures below { result < 2 ^ 24 }
{
    let bytes = frame.bytes();
    u32::from(bytes[1]) * 0x1_0000 + u32::from(bytes[2]) * 0x100 + u32::from(bytes[3])
}
