// Reads a table from standard input, and writes its list to standard output.
#![tactic(auto)]

ghost use Rattle.std.specs.Prelude.{◌≡◌, ◌≤◌, length, take, IfOk};
ghost use Rattle.model.specs.list.ShelfList.{shelf_list};

use model::{MAX_PIVOTS, RECORD_SIZE};
use std::io::{self, Read, Write};

// One byte more than the largest table has, by which a longer input shows.
const INPUT_SIZE: usize = 2 + (MAX_PIVOTS + (MAX_PIVOTS - 1)) * RECORD_SIZE + 1;

// As many bytes as the list of any input has at most, by the law list_most.
const TEXT_SIZE: usize = 32715;

// Reads until buf is full or the input ends, and answers how many bytes. A read that a signal interrupts counts as one that
// failed. By a while, since a read says only then how far it came.
fn read_input<R: Read>(from: &mut R, buf: &mut [u8]) -> io::Result<usize>
    ensures { IfOk result (λ n. n ≤ length buf.new) }
{
    let mut done = 0;
    while done < buf.len() {
        let n = from.read(&mut buf[done..])?;
        if n == 0 {
            return Ok(done);
        }
        done += n;
    }
    Ok(done)
}

// Writes the list of what was read to the head of text, and answers its length.
#[tactic(auto, using(crate::proofs::Rules::list_read))]
fn list_read(input: &[u8], text: &mut [u8]) -> usize
    requires { length (shelf_list input.now) ≤ length text.old }
    ensures length { result ≡ length (shelf_list input.now) }
    ensures listed { take result text.new ≡ shelf_list input.now }
{
    let listed = listing::list_table(input, text);
    // There is room, so this is never refused.
    let Ok(n) = listed else {
        return 0;
    };
    n
}

fn main(rt: HostRuntime) -> io::Result<()> {
    let mut input = [0u8; INPUT_SIZE];
    let mut text = [0u8; TEXT_SIZE];
    let Ok(n) = read_input(&mut rt.stdin(), &mut input) else {
        return rt
            .stderr()
            .write_all(b"list_table: standard input could not be read\n");
    };
    let m = list_read(&input[..n], &mut text);
    if rt.stdout().write_all(&text[..m]).is_err() {
        return rt
            .stderr()
            .write_all(b"list_table: the list could not be written\n");
    }
    Ok(())
}
