use crate::files::OneFile;
use commands::serve;
use std::alloc::Global;
use std::io;
use std::sync::Wait;
use std::thread::Threads;
use transcripts::{Input, Output, Server};

/// `msi` over files and streams in memory.
pub struct Msi;

impl Server for Msi {
    fn serve<R: Threads + Wait + Sync>(
        &self,
        rt: &R,
        alloc: Global,
        words: &io::Result<Vec<String>>,
        table: &str,
        input: Input<'_>,
        output: &mut Output,
        errors: &mut Output,
    ) -> u8 {
        let mut files = OneFile { alloc, text: table };
        serve(rt, alloc, words, &mut files, input, output, errors)
    }
}
