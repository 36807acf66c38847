ghost use denote.Param.Send.{IsSync};

use crate::output::Output;
use crate::streams::Input;
use std::alloc::Global;
use std::io;
use std::sync::Wait;
use std::thread::Threads;

/// What serves a command line of `msi`.
pub trait Server {
    /// The exit status of these words, the program's name first, or of not having them, where the file `table.json` has this text. It
    /// may wait where threads race at a floor. (A bound `Sync` says nothing to an impl of the trait, so it is required.)
    fn serve<R: Threads + Wait + Sync>(
        &self,
        rt: &R,
        alloc: Global,
        words: &io::Result<Vec<String>>,
        table: &str,
        input: Input<'_>,
        output: &mut Output,
        errors: &mut Output,
    ) -> u8
        requires { IsSync R.row };
}

/// The exit status of a command line. The output and the errors hold what it printed then, and nothing of what they held before.
pub(crate) fn serve_line<R: Threads + Wait + Sync, M: Server>(
    rt: &R,
    alloc: Global,
    msi: &M,
    words: &io::Result<Vec<String>>,
    table: &str,
    input: Input<'_>,
    output: &mut Output,
    errors: &mut Output,
) -> u8 {
    output.clear();
    errors.clear();
    msi.serve(rt, alloc, words, table, input, output, errors)
}

/// The words of a command line.
pub(crate) fn words_of(alloc: Global, line: &str) -> io::Result<Vec<String>> {
    let mut words = Vec::new(alloc);
    for word in line.split_whitespace() {
        words.push(String::from_str(alloc, word)?)?;
    }
    Ok(words)
}
