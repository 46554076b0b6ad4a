//! The first frames heard since the newest tick.

ghost use Rattle.std.specs.Prelude.{◌≡◌, ◌&&◌, [], length, nat_eq, nat_lt, get_or};
ghost use Rattle.std.specs.List.{list_any};
ghost use Rattle.station_journal.specs.Repeats.{is_one_of, same_frame, with_heard};
ghost use Rattle.station_book.specs.Digests.{digest_of};
ghost use Rattle.station_book.specs.State.{with_frame_ahead};

use crate::copying::copy_list;
use arrayvec::ArrayVec;
use modes_frame::Frame;
use std::marker::Model;
use std::simd::prelude::*;

// How many frames since a tick are compared.
const MOST: usize = 256;

// The number of hints: one for each value of a digest's low bits.
const HINTS: usize = 8192;

/// The first frames, at most 256. Contracts see them as a list.
#[derive(Drop)]
pub struct FirstFrames {
    // The digests of the frames, apart from them, so that a scan reads little memory.
    digests: ArrayVec<u32, MOST>,
    frames: ArrayVec<KeptFrame, MOST>,
    // For each value of a digest's low bits: 0 where no frame has it. Else the place of one that has it, or 1 for
    // place 0. Most frames are new, and find 0.
    hints: [u8; HINTS],
}

impl Model for FirstFrames {
    ghost use Rattle.std.specs.Prelude.{◌≡◌, ℕ, List, map};
    ghost use Rattle.station_book.specs.Digests.{digest_of, Hinted};

    ghost Value = { List (List ℕ) };

    ghost view = { λ f. f.frames.items };

    ghost invariant = { λ f. record {
      digests : f.digests.items ≡ map digest_of f.frames.items;
      hints : Hinted f.hints f.frames.items;
    } };
}

impl FirstFrames {
    /// No frames.
    pub fn new() -> Self
        ensures { result ≡ [] }
    {
        FirstFrames {
            digests: ArrayVec::new(),
            frames: ArrayVec::new(),
            hints: [0; HINTS],
        }
    }

    /// Whether the frame is one of them.
    pub fn contains(&self, frame: &Frame) -> bool
        ensures { result ≡ is_one_of self.now frame.now }
    {
        let digest = digest(frame);
        let hint = self.hints[digest as usize % HINTS];
        hint != 0 && (self.is_at(usize::from(hint), frame) || self.is_anywhere(digest, frame))
    }

    // Whether the frame is at the place.
    fn is_at(&self, place: usize, frame: &Frame) -> bool
        ensures { result ≡ (nat_lt place (length self.now) &&
            same_frame frame.now (get_or self.now place [])) }
    {
        if place < self.frames.len() {
            let there = &self.frames[place];
            return is_same(frame, &there.frame);
        }
        false
    }

    // Whether the frame, which has this digest, is at any place. Mostly no place has the digest.
    #[inline(never)]
    fn is_anywhere(&self, digest: u32, frame: &Frame) -> bool
        requires { digest ≡ digest_of frame.now }
        ensures { result ≡ is_one_of self.now frame.now }
    {
        is_among(self.digests.as_slice(), digest) && self.is_at_its_digest(digest, frame)
    }

    // Whether the frame is at a place that has its digest.
    #[inline(never)]
    fn is_at_its_digest(&self, digest: u32, frame: &Frame) -> bool
        requires { digest ≡ digest_of frame.now }
        ensures { result ≡ is_one_of self.now frame.now }
    {
        for (place, other) in self.digests.as_slice().iter().enumerate() {
            if *other == digest && self.is_at(place, frame) {
                return true;
            }
        }
        false
    }

    /// Appends the frame, if there are fewer than 256.
    pub fn hear(&mut self, frame: &Frame)
        ensures { self.new ≡ with_heard frame.now self.old }
    {
        let place = self.frames.len();
        if place < MOST {
            let digest = digest(frame);
            self.hints[digest as usize % HINTS] = (place as u8).max(1);
            self.digests.push(digest);
            self.frames.push(KeptFrame { frame: *frame });
        }
    }

    /// Becomes a copy of others.
    pub fn copy_from(&mut self, others: &FirstFrames)
        ensures { self.new ≡ others.now }
    {
        copy_list(&mut self.digests, &others.digests);
        copy_list(&mut self.frames, &others.frames);
        self.hints = others.hints;
    }

    /// Copies the next frame of others that are ahead, if they have one.
    pub fn catch_up(&mut self, ahead: &FirstFrames)
        ensures { self.new ≡ with_frame_ahead ahead.now self.old }
    {
        let place = self.frames.len();
        if place < ahead.frames.len() {
            let next = &ahead.frames[place];
            self.hear(&next.frame);
        }
    }

    /// Drops all frames.
    pub fn clear(&mut self)
        ensures { self.new ≡ [] }
    {
        forget(&mut self.hints, self.digests.as_slice());
        self.digests.clear();
        self.frames.clear();
    }
}

// A frame. The default, which an empty place of the array has, is seven bytes of zeros.
#[derive(Clone, Copy)]
struct KeptFrame {
    frame: Frame,
}

impl Model for KeptFrame {
    ghost use Rattle.std.specs.Prelude.{ℕ, List};

    ghost Value = { List ℕ };

    ghost view = { λ k. k.frame };

    ghost inverse = { λ bytes. record { frame = bytes } };
}

impl Default for KeptFrame {
    fn default() -> Self {
        KeptFrame {
            frame: Frame::from_bytes(&[0; 7]).unwrap(),
        }
    }
}

// The number in the last three bytes of the frame: its parity. Among the padded bytes they are at fixed places.
fn digest(frame: &Frame) -> u32
    ensures { result ≡ digest_of frame.now }
{
    // For its contract: the frame has 7 or 14 bytes.
    let _bytes = frame.bytes();
    let padded = frame.padded();
    u32::from(padded[13]) * 0x1_0000 + u32::from(padded[14]) * 0x100 + u32::from(padded[15])
}

// Whether the frames are the same. A short frame has zeros where a long one begins, and no long one begins with 0.
#[inline(always)]
fn is_same(frame: &Frame, other: &Frame) -> bool
    ensures { result ≡ same_frame frame.now other.now }
{
    // For their contract: each frame has the length that its first byte says.
    let _bytes = frame.bytes();
    let _other_bytes = other.bytes();
    let padded = u8x16::from_slice(frame.padded());
    padded
        .simd_ne(u8x16::from_slice(other.padded()))
        .to_bitmask()
        == 0
}

// Whether the digest is one of these. The loop has no early exit, so several are compared at once.
#[inline(always)]
fn is_among(digests: &[u32], digest: u32) -> bool
    ensures { result ≡ list_any (nat_eq digest) digests.now }
{
    let mut found = false;
    for other in digests {
        found |= *other == digest;
    }
    found
}

// Sets the hints of these digests to 0.
fn forget(hints: &mut [u8; HINTS], digests: &[u32]) {
    for digest in digests {
        hints[*digest as usize % HINTS] = 0;
    }
}
