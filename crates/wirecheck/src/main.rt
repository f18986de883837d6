// Checks a captured wire log, line by line, in a fixed amount of memory.

#![tactic(auto)]

ghost use Rattle.std.specs.Prelude.{◌≡◌, length, IfOk, OnOk};
ghost use Rattle.std.specs.Io.{WritesAtMost};
ghost use Rattle.std.specs.Io.KnownBytes.{Appends};
ghost use Rattle.wirecheck.specs.Logs.{progress, piece_read, end_told, told, ended};

use log::Log;
use std::io;
use std::io::{BufWriter, Write};

mod log;
mod report;
mod words;

// Takes a log as it comes, and writes the report of each line that has ended.
#[derive(Drop)]
struct Check<W> {
    log: Log,
    out: W,
}

impl<W: Write> Write for Check<W> {
    fn write(&mut self, piece: &[u8]) -> io::Result<usize>
        ensures bound { WritesAtMost result piece.now }
        ensures whole { IfOk result (λ n. n ≡ length piece.now) }
        ensures log { OnOk result (progress self.new.log ≡ (piece_read (progress self.old.log) piece.now).log) }
        ensures out { OnOk result (Appends (W.contents self.old.out) (W.contents self.new.out) (piece_read (progress self.old.log) piece.now).out) }
    {
        for byte in piece {
            if self.log.take(*byte) {
                self.report_line()?;
            }
        }
        // Whoever reads along is told of a line as soon as its end has come.
        self.out.flush()?;
        Ok(piece.len())
    }

    fn flush(&mut self) -> io::Result<()> {
        self.out.flush()
    }
}

impl<W: Write> Check<W> {
    fn report_line(&mut self) -> io::Result<()>
        ensures log { OnOk result (progress self.new.log ≡ ended (progress self.old.log)) }
        ensures out { OnOk result (Appends (W.contents self.old.out) (W.contents self.new.out) (told (progress self.old.log))) }
    {
        self.out.write_all(self.log.end_line().as_bytes())
    }

    // A last line without its line end, and the count.
    fn finish(&mut self) -> io::Result<()>
        ensures { OnOk result (Appends (W.contents self.old.out) (W.contents self.new.out) (end_told (progress self.old.log))) }
    {
        if self.log.is_within_line() {
            self.report_line()?;
        }
        writeln!(self.out, "{}", self.log)?;
        self.out.flush()
    }
}

fn main(rt: HostRuntime) -> io::Result<()> {
    let mut check = Check {
        log: Log::new(),
        out: BufWriter::new(rt.alloc(), rt.stdout())?,
    };
    io::copy(&mut rt.stdin(), &mut check)?;
    check.finish()
}
