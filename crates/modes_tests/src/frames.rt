//! Values from known lines and frames.
mod bytes;
mod plain;

use crate::comparing::{same, same_at};
use crate::known::{ALL_CALL, KLM1023, frame};
use modes_frame::CheckFault::{BadParity, Unassigned, Unsupported};
use modes_frame::readers::claim;
use modes_frame::{
    CheckedFrame, Claim, Cut, Cutter, Frame, Line, LineFault, read_cut, read_line, remainder,
};
use std::test::Fail;

#[test]
fn lines_say_a_frame_or_their_first_fault(rt: HostRuntime) -> Result<(), Fail> {
    let known = Ok(Line::Frame(Frame::from_bytes(&KLM1023).ok_or("no frame")?));
    for (line, want) in [
        ("*8D4840D6202CC371C32CE0576098;", known),
        ("*8d4840d6202cc371c32ce0576098;", known),
        ("@0123456789AB8D4840D6202CC371C32CE0576098;\r", known),
        (" \t*8D4840D6202CC371C32CE0576098;\r \t", known),
        ("", Ok(Line::Blank)),
        ("   ", Ok(Line::Blank)),
        ("*0000;", Ok(Line::ModeAc)),
        ("@0123456789AB7700;", Ok(Line::ModeAc)),
        ("8D4840D6;", Err(LineFault::NoStart)),
        ("\x0B*0000;", Err(LineFault::NoStart)),
        ("*8D4840D6", Err(LineFault::NoEnd)),
        ("*", Err(LineFault::NoEnd)),
        ("@", Err(LineFault::NoEnd)),
        ("*;", Err(LineFault::BadLength(0))),
        ("*8D4840D6202CC;", Err(LineFault::BadLength(13))),
        ("@0123456789AB;", Err(LineFault::BadLength(12))),
        ("*8DG840D6202CC3;", Err(LineFault::BadDigit(3))),
        ("@01234567x9AB0000;", Err(LineFault::BadDigit(9))),
        ("*8D4840D6202CC3;", Err(LineFault::WrongLength(17))),
    ] {
        same_at(&rt, read_line(line.as_bytes()), want, line);
    }
    Ok(())
}

#[test]
fn blanks_count_towards_the_64_bytes_of_a_line(rt: HostRuntime) {
    for (count, want) in [(64, Ok(Line::Blank)), (65, Err(LineFault::TooLong))] {
        assert_eq!(rt; read_line(&[b' '; 65][..count]), want, "{count} spaces");
    }
}

#[test]
fn a_cut_line_reads_as_its_bytes(rt: HostRuntime) -> Result<(), Fail> {
    for bytes in [" *0000;\t\n", "*0000\n", " \r\n", "\n"] {
        match Cutter::new().push_line(bytes.as_bytes()).1 {
            Some(Cut::Whole(cut)) => same_at(&rt, read_cut(&cut), read_line(cut.bytes()), bytes),
            _ => return Err("no line".into()),
        }
    }
    Ok(())
}

#[test]
fn frames_have_the_bytes_of_their_format(rt: HostRuntime) {
    for (bytes, want) in [
        (KLM1023.as_slice(), Some((17, 112))),
        (&ALL_CALL, Some((11, 56))),
        (&KLM1023[..7], None),
        (&[0; 14], None),
        (&[], None),
    ] {
        let frame = Frame::from_bytes(bytes);
        let format_and_bits = frame.map(|frame| (frame.df(), frame.bits()));
        assert_eq!(rt; format_and_bits, want, "{} bytes", bytes.len());
    }
}

#[test]
fn bits_are_counted_in_the_order_in_which_they_are_sent(rt: HostRuntime) -> Result<(), Fail> {
    let frame = Frame::from_bytes(&KLM1023).ok_or("no frame")?;
    let mut number: u128 = 0;
    for n in 1..=frame.bits() {
        number = number << 1 | u128::from(frame.bit(n));
    }
    same(&rt, number, 0x8D48_40D6_202C_C371_C32C_E057_6098);
    Ok(())
}

// A line, the remainder of its frame, the address for which it speaks, and whether that is overlaid.
const CLAIMS: &[(&str, u32, u32, bool)] = &[
    ("*8D4840D6202CC371C32CE0576098;", 0, 0x48_40D6, false),
    // DF 18 with control field 0
    ("*904840D6202CC371C32CE02A6C6D;", 0, 0x48_40D6, false),
    ("*5D484FDEA248E3;", 0, 0x48_4FDE, false),
    ("*5D484FDEA248F5;", 0x16, 0x48_4FDE, true),
    ("*5D484FDEA2489C;", 0x7F, 0x48_4FDE, true),
    ("*2A00516D492B80;", 0x51_0AF9, 0x51_0AF9, true),
    ("*20000100DF6126;", 0x51_0AF9, 0x51_0AF9, true),
    ("*000014B496B148;", 0x48_40D6, 0x48_40D6, true),
    ("*800014B4000000000000003EAE64;", 0x48_40D6, 0x48_40D6, true),
    // Replies without an address, and with one bit or two before a parity of zero.
    ("*00000000000000;", 0, 0, true),
    ("*00000001000000;", 0xFF_F409, 0xFF_F409, true),
    ("*00000002000000;", 0x00_1C1B, 0x00_1C1B, true),
    ("*00000003000000;", 0xFF_E812, 0xFF_E812, true),
    ("*00000080000000;", 0x07_06C0, 0x07_06C0, true),
];

#[test]
fn remainders_are_what_was_laid_over_the_parity(rt: HostRuntime) -> Result<(), Fail> {
    for (line, remains, _, _) in CLAIMS {
        same_at(&rt, remainder(&frame(*line)?), *remains, line);
    }
    Ok(())
}

#[test]
fn frames_speak_for_an_address(rt: HostRuntime) -> Result<(), Fail> {
    for (line, _, address, overlaid) in CLAIMS {
        let (address, overlaid) = (*address, *overlaid);
        let wanted = Ok(Claim { address, overlaid });
        let heard = frame(*line)?;
        same_at(&rt, claim(&heard), wanted, line);
        let checked = CheckedFrame::of(heard);
        same_at(&rt, checked.claim(), wanted, line);
        same(&rt, *checked.frame(), heard);
    }
    Ok(())
}

#[test]
fn frames_speak_for_nobody_with_their_first_fault(rt: HostRuntime) -> Result<(), Fail> {
    for (line, fault) in [
        ("*8D4840D6202CC371C32CE0576099;", BadParity(1)),
        ("*904840D6202CC371C32CE02A6C6C;", BadParity(1)),
        // DF 18 with control field 1
        ("*914840D6202CC371C32CE0000000;", Unsupported(18)),
        ("*5D484FDEA24863;", BadParity(128)),
        ("*5D00000064E712;", Unassigned(0)),
        ("*5DFFFFFF28E024;", Unassigned(0xFF_FFFF)),
        ("*08000000000000;", Unsupported(1)),
        ("*C000000000000000000000000000;", Unsupported(24)),
    ] {
        same_at(&rt, claim(&frame(line)?), Err(fault), line);
    }
    Ok(())
}

// What a cutter answers: the bytes of a line, or that it is too long, or that no line ended.
fn answer(cut: &Option<Cut>) -> Option<Result<&[u8], LineFault>> {
    match cut {
        Some(Cut::Whole(line)) => Some(Ok(line.bytes())),
        Some(Cut::TooLong) => Some(Err(LineFault::TooLong)),
        None => None,
    }
}

#[test]
fn bytes_are_cut_one_by_one(rt: HostRuntime) {
    let mut cutter = Cutter::new();
    for (bytes, want) in [
        (b"*8D4840D6202CC371C32CE0576098;".as_slice(), None),
        // No bytes are the end of the input.
        (b"", Some(Ok(b"*8D4840D6202CC371C32CE0576098;".as_slice()))),
        (b"", None),
        (&[b' '; 65], None),
        (b"\n", Some(Err(LineFault::TooLong))),
        (b"*0000;\n", Some(Ok(b"*0000;"))),
        (b"\n", Some(Ok(b""))),
        (b"", None),
        (&[b'x'; 64], None),
        (b"\n", Some(Ok(&[b'x'; 64]))),
        (&[b'x'; 65], None),
        (b"", Some(Err(LineFault::TooLong))),
    ] {
        let mut cut = if bytes.is_empty() {
            cutter.finish()
        } else {
            None
        };
        for byte in bytes {
            cut = cutter.push(*byte);
        }
        assert_eq!(rt; answer(&cut), want, "{bytes:?}");
    }
}

#[test]
fn bytes_are_cut_in_pieces(rt: HostRuntime) {
    let mut cutter = Cutter::new();
    same(&rt, cutter.push(b'*'), None);
    for (bytes, count, want) in [
        (
            b"0000;\n\n*00".as_slice(),
            6,
            Some(Ok(b"*0000;".as_slice())),
        ),
        (b"\n*00", 1, Some(Ok(b""))),
        (b"*00", 3, None),
        (&[b'0'; 62], 62, None),
        (b"\n", 1, Some(Err(LineFault::TooLong))),
        (b"", 0, None),
    ] {
        let (taken, cut) = cutter.push_line(bytes);
        assert_eq!(rt; (taken, answer(&cut)), (count, want), "{bytes:?}");
    }
    same(&rt, cutter.finish(), None);
}
