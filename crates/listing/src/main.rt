// The listing program (document 01, "Saved mask and listing"). It moves bytes: pieces of standard input go into the
// listing's steps, their text to standard output. Where its first argument is `save` it prints no listing but the mask
// after it, as a saved line; where there is a second, that is a saved line, without its line feed, to start from.
#![tactic(auto)]

mod asked;
mod run;
mod streams;

use crate::asked::arguments;
use crate::run::{BUFFER, Run};
use crate::streams::Streams;

fn main(rt: HostRuntime) {
    let mut input = [0u8; BUFFER];
    let asked = match arguments(&rt, &mut input) {
        Ok(asked) => asked,
        Err(error) => {
            let _ = eprintln!(rt; "{error}");
            return;
        }
    };
    let mut run = Run::new(Streams::new(rt.stdin(), rt.stdout()), asked);
    run.list(&mut input);
    run.flush();
    if !asked.shown {
        run.print_mask();
    }
    if let Some(error) = run.streams.failure {
        let _ = eprintln!(rt; "listing: {error}");
    }
}
