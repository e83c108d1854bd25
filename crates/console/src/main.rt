// The text program: lines of calls from standard input, their answers to standard output, on one table of at most 65,536 bytes.
#![tactic(auto)]

ghost use Rattle.std.specs.Prelude.{◌≡◌, [], IfOk};
ghost use Rattle.lines.specs.Machine.{beginning};
ghost use Rattle.console.specs.Input.{Answered, Taken, TakenWhole, ReadOn, Finished};

use answers::calls::Table;
use answers::printer::Printer;
use answers::printing::answer;
use lines::Reader;
use lines::reading::{advance, close, is_under_way, start};
use std::io;
use std::io::{Read, Stdin, Stdout};

// A line that may go on in the next bytes that come, the table, where a span writes its rows, and what waits to be printed.
#[derive(Drop)]
struct Program {
    reader: Reader,
    table: Table,
    found: [u8; 65536],
    printer: Printer,
}

impl Program {
    // No line is under way, there is no table, and nothing waits.
    fn new(stdout: Stdout) -> Program
        ensures { (result.reader ≡ beginning) × (result.table.bytes ≡ []) × (result.printer.used ≡ 0) }
    {
        Program {
            reader: start(),
            table: Table::new(),
            found: [0; 65536],
            printer: Printer::new(stdout),
        }
    }

    // The line under way ends, and is answered.
    fn answer_line(&mut self)
        ensures { Answered self.old self.new }
    {
        let line = close(self.reader);
        self.reader = start();
        answer(&mut self.printer, &mut self.table, &mut self.found, line);
    }

    // Answers each line that ends in these bytes; another goes on in the next ones.
    fn answer_all(&mut self, bytes: &[u8])
        ensures { Taken bytes.now 0 self.old self.new }
    {
        let mut at = 0;
        // The place goes on by as many bytes as `advance` reads, so no `for` counts it.
        while at < bytes.len() {
            let went = advance(bytes, at, self.reader);
            self.reader = went.reader;
            at = went.at;
            if at < bytes.len() {
                self.answer_line();
                at += 1;
            }
        }
    }

    // Answers each line that ends in these bytes, and writes the answers.
    fn answer_some(&mut self, bytes: &[u8])
        ensures { TakenWhole bytes.now self.old self.new }
    {
        self.answer_all(bytes);
        self.printer.flush();
    }

    // Reads once and answers what came: does the input go on? The only errors are those of this read and of a write.
    fn read_more(&mut self, from: &mut Stdin) -> io::Result<bool>
        ensures { IfOk result (ReadOn self.old self.new) }
    {
        let mut bytes = [0; 65536];
        let n = from.read(&mut bytes)?;
        if n == 0 {
            return Ok(false);
        }
        self.answer_some(&bytes[..n]);
        self.printer.outcome()?;
        Ok(true)
    }

    // The last line may lack its line end.
    fn finish(&mut self)
        ensures { Finished self.old self.new }
    {
        if is_under_way(self.reader) {
            self.answer_line();
            self.printer.flush();
        }
    }
}

fn main(rt: HostRuntime) -> io::Result<()> {
    let mut from = rt.stdin();
    let mut program = Program::new(rt.stdout());
    // A proved loop has to end, and nothing says that the input does: a number of reads that no run uses up.
    for _ in 0..u64::MAX {
        if !program.read_more(&mut from)? {
            break;
        }
    }
    program.finish();
    program.printer.outcome()
}
