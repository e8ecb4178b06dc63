//! The packet lines of a script, one after the other.
ghost use Rattle.std.specs.Prelude.{◌≡◌, IfOk, MatchOption};
ghost use Rattle.adf_script.specs.Lines.{kept_lines};
ghost use Rattle.adf_script.specs.Packets.{NoneIsLeft};
ghost use Rattle.adf_script.specs.Next.{NextGives};
ghost use Rattle.adf_script.specs.steps.Left.{Passes};

use crate::grammar::parse;
use crate::lines::{first_line, is_passed_over};
use ados_model::Packet;
use std::alloc::{AllocError, Global};
use std::marker::Model;
use std::snapshot::Snapshot;

/// The result of the next packet line.
#[derive(Drop)]
pub enum NextLine {
    /// No line is left.
    End,
    /// The line with this number among all lines is faulty.
    Faulty(u64),
    /// The line puts this packet. The number counts the packets of the script from 1.
    Puts(u64, Packet),
}

/// The packet lines of a script, and how many were read.
#[derive(Drop)]
pub struct PacketLines<'a> {
    script: Snapshot<&'a [u8]>,
    rest: &'a [u8],
    number: u64,
    count: u64,
}

impl<'a> Model for PacketLines<'a> {
    ghost use Rattle.std.specs.Prelude.{◌+◌, ◌≤◌, ◌<◌, ◌^◌, length};
    ghost use Rattle.adf_script.specs.Lines.{kept_lines};
    ghost use Rattle.adf_script.specs.Next.{LinesView};
    ghost use Rattle.adf_script.specs.steps.Left.{IsLeft};

    ghost Value = { LinesView };

    ghost view = { λ l. record { lines = kept_lines l.script.value.now; count = l.count } };

    ghost invariant = { λ l. IsLeft l.script.value.now l.number l.count l.rest.now × (l.count ≤ l.number) × (l.number + length l.rest.now < 2 ^ 64) };
}

impl<'a> PacketLines<'a> {
    /// The packet lines of a script, before the first.
    pub fn of(script: &'a [u8]) -> PacketLines<'a>
        ensures { result ≡ record { lines = kept_lines script.now; count = 0 } }
    {
        PacketLines {
            script: Snapshot::of(&script),
            rest: script,
            number: 0,
            count: 0,
        }
    }

    /// Moves on to the next packet line. The result has its number among all lines.
    fn next_line(&mut self) -> Option<(u64, &'a [u8])>
        ensures { MatchOption result
            (NoneIsLeft self.old.lines self.old.count)
            (λ line. Passes self.old (line.0, line.1.now) self.new) }
    {
        while !self.rest.is_empty() {
            let (line, behind) = first_line(self.rest);
            self.rest = behind;
            self.number += 1;
            if !is_passed_over(line) {
                self.count += 1;
                return Some((self.number, line));
            }
        }
        None
    }

    /// The result of the next packet line. `values` are the values of the replies so far, to which `$k` refers.
    pub fn next(&mut self, alloc: Global, values: &[Option<u32>]) -> Result<NextLine, AllocError>
        ensures { IfOk result (λ next. NextGives self.old values.now next self.new) }
    {
        let Some((number, line)) = self.next_line() else {
            return Ok(NextLine::End);
        };
        match parse(alloc, values, line)? {
            Some(packet) => Ok(NextLine::Puts(self.count, packet)),
            None => Ok(NextLine::Faulty(number)),
        }
    }
}
