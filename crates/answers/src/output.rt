// Standard output, which takes the answers. The first write that fails is kept, and no other is tried after it: each answer is put together all the same, and
// the program asks for the outcome when it has answered what came.
ghost use Rattle.std.specs.Prelude.{◌≡◌, None, Some, MatchOption, IfSome, IsOk, IsErrOf};
ghost use Rattle.answers.specs.Failure.{first_failure};

use std::io;
use std::io::Stdout;

#[derive(Drop)]
pub struct Output {
    stdout: Stdout,
    failed: Option<io::Error>,
}

impl Output {
    // No write has failed.
    pub fn new(stdout: Stdout) -> Output
        ensures { first_failure result ≡ None }
    {
        Output {
            stdout: stdout,
            failed: None,
        }
    }

    // Writes the bytes, where no write has failed.
    pub fn write(&mut self, bytes: &[u8])
        ensures { IfSome (first_failure self.old) (λ e. first_failure self.new ≡ Some e) }
    {
        if self.failed.is_none() {
            if let Err(e) = self.stdout.write_all(bytes) {
                self.failed = Some(e);
            }
        }
    }

    // The error of the first write that failed.
    pub fn outcome(&self) -> io::Result<()>
        ensures { MatchOption (first_failure self.now) (IsOk result) (λ e. IsErrOf result e) }
    {
        match self.failed {
            Some(e) => Err(e),
            None => Ok(()),
        }
    }
}
