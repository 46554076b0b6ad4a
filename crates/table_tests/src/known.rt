//! Frames whose values are known.

// 4840D6, callsign KLM1023.
pub const IDENTIFICATION: &[u8] = b"\x8D\x48\x40\xD6\x20\x2C\xC3\x71\xC3\x2C\xE0\x57\x60\x98";

// 4840D6 under an overlaid address, its altitude of 32,300 feet in format 0.
pub const SHORT_AIR: &[u8] = b"\x00\x00\x14\xB4\x96\xB1\x48";

// 40621D, an even place at 38,000 feet.
pub const EVEN: &[u8] = b"\x8D\x40\x62\x1D\x58\xC3\x82\xD6\x90\xC8\xAC\x28\x63\xA7";

// 40621D, an odd place, which gives a position with the even one.
pub const ODD: &[u8] = b"\x8D\x40\x62\x1D\x58\xC3\x86\x43\x5C\xC4\x12\x69\x2A\xD6";

// 40621D, an even place far off, which gives no position with the odd one.
pub const FAR: &[u8] = b"\x8D\x40\x62\x1D\x58\xC3\x80\x00\x00\x00\x00\x53\x36\x8B";

// 485020, its speed over ground.
pub const SPEED: &[u8] = b"\x8D\x48\x50\x20\x99\x44\x09\x94\x08\x38\x17\x5B\x28\x4F";

// 510AF9, an all-call reply.
pub const ALL_CALL: &[u8] = b"\x5D\x51\x0A\xF9\xA8\xD8\xBC";

// 510AF9 under an overlaid address, its squawk 0356.
pub const IDENTITY: &[u8] = b"\x2A\x00\x51\x6D\x49\x2B\x80";

// 510AF9 under an overlaid address, its altitude of -1,200 feet.
pub const LOW: &[u8] = b"\x20\x00\x01\x00\xDF\x61\x26";

// A frame and a reply whose parity doesn't hold.
pub const SPOILED: &[u8] = b"\x8D\x48\x40\xD6\x20\x2C\xC3\x71\xC3\x2C\xE0\x57\x60\x99";

pub const SPOILED_REPLY: &[u8] = b"\x5D\x48\x4F\xDE\xA2\x48\x63";

// Replies of the addresses 000000 and FFFFFF.
pub const ZEROS: &[u8] = b"\x5D\x00\x00\x00\x64\xE7\x12";

pub const ONES: &[u8] = b"\x5D\xFF\xFF\xFF\x28\xE0\x24";

// The overlaid address 000000.
pub const NOBODY: &[u8] = b"\x00\x00\x00\x00\x00\x00\x00";

// A downlink format that isn't read.
pub const FORMAT_1: &[u8] = b"\x08\x00\x00\x00\x00\x00\x00";
