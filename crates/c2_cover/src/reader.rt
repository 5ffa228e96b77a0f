// Reading a covered text in pieces.
ghost use Rattle.std.specs.Prelude.{◌≡◌, ◌<◌, ◌≤◌, ◌+◌, min, Some, length, OnErr, IfOk};
ghost use Rattle.c2_base.specs.Causes.{HasCause};
ghost use Rattle.c2_base.specs.Source.{StaysSource};
ghost use Rattle.c2_cover.specs.Covers.{AreMerged, IsStart, ReadsNext};
ghost use Rattle.c2_cover.specs.Stretches.{IsGiven, IsReady, IsReadTo, due_of, range_place};
ghost use Rattle.c2_cover.specs.Stretches.{reading, offset_place};

use crate::cover::Cover;
use crate::offsets::BoxOffset;
use c2_base::{Failed, Range, Source, fill_at};
use std::marker::Model;

// How many bytes a box's start has in the text.
const WORD_LEN: usize = 8;

/// Reads the covered text of a file from its start, a piece at a time.
///
/// The pieces, one after the other, are the covered text.
#[derive(Drop)]
pub struct CoveredReader<'c> {
    size: u64,
    place: Place<'c>,
}

// Where a reader stands.
#[derive(Clone, Copy)]
struct Place<'c> {
    at: u64,
    // the ranges that aren't passed yet
    ranges_left: &'c [Range],
    // the box offsets that aren't begun yet
    offsets: &'c [BoxOffset],
    // the box's start that was begun, and how many of its bytes were given
    start: u64,
    done: usize,
}

impl<'c> Model for CoveredReader<'c> {
    ghost use Rattle.std.specs.Prelude.{◌<◌, ◌≤◌, ◌^◌};
    ghost use Rattle.c2_cover.specs.Covers.{Reading, AreMerged};
    ghost use Rattle.c2_cover.specs.Stretches.{due_of};
    ghost use Rattle.c2_cover.specs.BoxOffsets.{AreBoxOffsets};

    ghost Value = { Reading };

    ghost view = { λ r. record {
      size = r.size;
      at = r.place.at;
      ranges = r.place.ranges_left.now;
      offsets = r.place.offsets.now;
      due = due_of r.place.start r.place.done;
    } };

    ghost invariant = { λ r. (r.place.at ≤ r.size)
        × AreMerged r.size r.place.at r.place.ranges_left.now
        × AreBoxOffsets r.size r.place.ranges_left.now r.place.at r.place.offsets.now
        × (r.size < 2 ^ 64) };
}

// A place of the file, and the ranges after it.
#[derive(Clone, Copy)]
struct ReadTo<'c> {
    at: u64,
    ranges_left: &'c [Range],
}

// Where the first of these ranges begins or the first of these box offsets stands, or the end of the file.
fn stretch_end(size: u64, ranges_left: &[Range], offsets: &[BoxOffset]) -> u64
    ensures { result ≡ min (range_place size ranges_left.now) (offset_place size offsets.now) }
{
    let range = match ranges_left.first() {
        Some(range) => range.start,
        None => size,
    };
    let offset = match offsets.first() {
        Some(offset) => offset.at,
        None => size,
    };
    range.min(offset)
}

// Puts bytes of this start into the first places of `buf`, from the first on that isn't given yet, and says how many.
fn give(start: u64, done: usize, buf: &mut [u8]) -> usize
    requires { done < 8 }
    ensures { IsGiven (due_of start done) buf.old buf.new result }
{
    let bytes = start.to_be_bytes();
    let count = (WORD_LEN - done).min(buf.len());
    buf[..count].copy_from_slice(&bytes[done..done + count]);
    count
}

impl<'c> CoveredReader<'c> {
    /// A reader at the start of the covered text. Takes no memory.
    pub fn new(cover: &'c Cover) -> CoveredReader<'c>
        ensures { IsStart cover.now result }
    {
        CoveredReader {
            size: cover.size,
            place: Place {
                at: 0,
                ranges_left: &cover.ranges,
                offsets: &cover.offsets,
                start: 0,
                done: WORD_LEN,
            },
        }
    }

    // The place after the range that begins here.
    fn read_to(&self) -> ReadTo<'c>
        ensures { IsReadTo self.now result.at result.ranges_left.now }
    {
        if let Some((first, others)) = self.place.ranges_left.split_first() {
            if first.start == self.place.at {
                return ReadTo {
                    at: first.start + first.length,
                    ranges_left: others,
                };
            }
        }
        ReadTo {
            at: self.place.at,
            ranges_left: self.place.ranges_left,
        }
    }

    // The place after the range that begins here, where the box offset that stands there is begun.
    fn ready(&self) -> Place<'c>
        ensures { IsReady self.now (reading self.now.size result.at result.ranges_left.now
            result.offsets.now result.start result.done) }
    {
        let ReadTo { at, ranges_left } = self.read_to();
        let offsets = self.place.offsets;
        let start = self.place.start;
        let done = self.place.done;
        if done >= WORD_LEN {
            if let Some((first, others)) = offsets.split_first() {
                if first.at == at {
                    return Place {
                        at,
                        ranges_left,
                        offsets: others,
                        start: first.start,
                        done: 0,
                    };
                }
            }
        }
        Place {
            at,
            ranges_left,
            offsets,
            start,
            done,
        }
    }

    /// Puts the next piece of the covered text into the first bytes of `buf` and says how long it is: 0 exactly at the end.
    ///
    /// The source has the size of the reader's cover, and `buf` isn't empty. [`Failed`] comes only where the source failed, and
    /// leaves the reader as it was; the buffer may then hold some bytes. Takes no memory.
    pub fn next<S: Source>(&mut self, source: &mut S, buf: &mut [u8]) -> Result<usize, Failed>
        requires room { 0 < length buf.old }
        requires size { S.len source.old ≡ self.old.size }
        ensures piece { IfOk result (ReadsNext (S.known source.old) self.old self.new buf.new) }
        ensures same_size { self.new.size ≡ self.old.size }
        ensures unchanged { OnErr result (self.new ≡ self.old) }
        ensures stays { StaysSource S.len S.known S.faults source.old source.new }
        ensures cause { HasCause (S.faults source.old) (S.faults source.new) result }
    {
        let mut place = self.ready();
        if place.done < WORD_LEN {
            let given = give(place.start, place.done, buf);
            place.done += given;
            self.place = place;
            return Ok(given);
        }
        let end = stretch_end(self.size, place.ranges_left, place.offsets);
        let count = (end - place.at).min(buf.len() as u64) as usize;
        fill_at(source, place.at, &mut buf[..count])?;
        place.at += count as u64;
        self.place = place;
        Ok(count)
    }
}
