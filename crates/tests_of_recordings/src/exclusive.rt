//! MSI+E: what its recordings may name, and what MSI's may not.

use crate::asserting::same;
use crate::recordings::{is_refused, read, writes};
use base::controller::Protocol;
use record::ReadKind;

/// A text of MSI+E in which all its kinds of new names stand.
const TEXT: &str =
    "msi-recording 2\nprotocol msi+e\nshape 2 1\nseats 0\nopening 7\ncells 3\ncell cache I Load act E\n\
    cell cache E Data-Dir-Excl stall\ncell directory S GetS act S data-excl\nentries 1\nask 0 0 load = load 0 7\nend\n";

#[test]
fn a_text_of_msi_e(rt: HostRuntime) {
    let mut source = TEXT.as_bytes();
    let recording = read(rt.alloc(), &mut source).expect(&rt, "a recording");
    same(&rt, &recording.protocol(), &Protocol::MsiE);
    writes(&rt, rt.alloc(), &recording, TEXT);
}

#[test]
fn texts_that_are_refused(rt: HostRuntime) {
    for (text, kind, line) in &[
        (
            "msi-recording 2\nprotocol msi\nshape 1 1\nseats 0\nopening 0\ncells 1\ncell cache E Load stall\nentries 0\nend\n",
            ReadKind::BadLine,
            7,
        ),
        (
            "msi-recording 2\nprotocol msi\nshape 1 1\nseats 0\nopening 0\ncells 1\ncell cache I Load act E\nentries 0\nend\n",
            ReadKind::BadLine,
            7,
        ),
        (
            "msi-recording 1\nshape 1 1\nopening 0\ncells 1\ncell directory I GetS act M data-excl set-owner\nentries 0\nend\n",
            ReadKind::BadLine,
            5,
        ),
        (
            "msi-recording 2\nprotocol msi+e\nshape 1 1\nseats 0\nopening 0\ncells 1\n\
            cell directory I GetS act M data-excl set-owner\nentries 0\nend\n",
            ReadKind::BadLine,
            7,
        ),
        (
            "msi-recording 2\nprotocol msi+e\nshape 1 1\nseats 0\nopening 0\ncells 185\nentries 0\nend\n",
            ReadKind::OverLimit,
            6,
        ),
        (
            "msi-recording 2\nprotocol msi+e\nshape 1 1\nseats 0\nopening 0\ncells 161\nentries 0\nend\n",
            ReadKind::BadLine,
            7,
        ),
        (
            "msi-recording 2\nprotocol MSI+E\nentries 0\nend\n",
            ReadKind::UnknownProtocol,
            2,
        ),
    ] {
        is_refused(&rt, rt.alloc(), text.as_bytes(), *line, *kind);
    }
}
