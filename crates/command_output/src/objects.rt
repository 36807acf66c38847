use base::Place;
use monitor::Violation;
use std::fmt;

/// A violation as an object in JSON, each part by its name: `{"kind":"stale load","got":0,"due":5,"block":0}`.
#[derive(Clone, Copy)]
pub struct ViolationObject(pub Violation);

impl fmt::Display for ViolationObject {
    fn fmt<W: fmt::Write>(&self, f: &mut fmt::Formatter<W>) -> fmt::Result {
        match self.0 {
            Violation::Blank {
                at: Place::Dir,
                block,
            } => write!(
                f,
                "{{\"kind\":\"blank\",\"at\":\"directory\",\"block\":{}}}",
                block.0
            ),
            Violation::Blank {
                at: Place::Cache(cache),
                block,
            } => write!(
                f,
                "{{\"kind\":\"blank\",\"at\":\"cache\",\"cache\":{},\"block\":{}}}",
                cache.0, block.0
            ),
            Violation::SecondWriter {
                block,
                first,
                second,
            } => write!(
                f,
                "{{\"kind\":\"second writer\",\"first\":{},\"second\":{},\"block\":{}}}",
                first.0, second.0, block.0
            ),
            Violation::WriterBesideReader {
                block,
                writer,
                reader,
            } => write!(
                f,
                "{{\"kind\":\"writer beside reader\",\"writer\":{},\"reader\":{},\"block\":{}}}",
                writer.0, reader.0, block.0
            ),
            Violation::StaleLoad { block, got, due } => write!(
                f,
                "{{\"kind\":\"stale load\",\"got\":{got},\"due\":{due},\"block\":{}}}",
                block.0
            ),
        }
    }
}
