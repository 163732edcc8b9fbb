// relief: a stream of document 01 on standard input, its output on standard output.
#![tactic(auto)]

ghost use Rattle.std.specs.Prelude.{◌≡◌, length};

use std::io;
use std::io::Write;
use stream_bytes::read_full;
use stream_run::relief;

// One byte more than the longest accepted stream has.
const INPUT: usize = 24613;

// The bytes of the longest output: 22, and 6 for each of 4,096 rows.
const OUTPUT: usize = 24598;

// A buffer of one byte more than the longest accepted stream has: of a longer input these bytes decide the output
// (LongInput in crates/stream_run/specs). A function, not an array in `main`, since its contract holds the length.
fn input_buffer() -> [u8; INPUT]
    ensures { 24613 ≡ length result }
{
    [0; INPUT]
}

// A buffer for the longest output: 22 bytes, and 6 for each of 4,096 rows.
fn output_buffer() -> [u8; OUTPUT]
    ensures { 24598 ≡ length result }
{
    [0; OUTPUT]
}

// Writes the output. The program ends with status 0 all the same if that could not be written whole, and says so on
// standard error.
fn write_stdout<W: Write, E: Write>(out: &mut W, errors: &mut E, bytes: &[u8]) {
    if out.write_all(bytes).is_err() {
        let _ = errors.write_all(b"relief: the output could not be written whole\n");
    }
}

fn main(rt: HostRuntime) {
    let mut input = input_buffer();
    let mut stdin = rt.stdin();
    let n = read_full(&mut stdin, &mut input);
    if n == INPUT {
        let _ = io::copy(&mut stdin, &mut io::sink());
    }
    let mut out = output_buffer();
    let written = relief(&input[..n], &mut out);
    if let Ok(k) = written {
        write_stdout(&mut rt.stdout(), &mut rt.stderr(), &out[..k]);
    }
}
