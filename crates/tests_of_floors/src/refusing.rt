//! Runs that go on behind a refusal. `ci/refuse-growths` refuses each of their growths in turn: what stood before the call
//! has to stand then, and the second call has to succeed. Where nothing is refused they are plain runs.

mod crews;
mod floors;
