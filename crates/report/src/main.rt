// Reads a case text from standard input and prints its report.
#![tactic(auto)]

ghost use Rattle.std.specs.Prelude.{◌≡◌, ◌+◌, ◌≤◌, length, IfOk, vec_len};

use std::alloc::Global;
use std::io;
use std::io::Read;
use summary::report;

// One byte more than a case text may have: enough to know that a text is too long.
const ENOUGH: usize = 65_537;

// Reads once into `part`, adds what came to the text, and says how much that was.
fn read_part<R: Read>(from: &mut R, part: &mut [u8], text: &mut Vec<u8>) -> io::Result<usize>
    ensures { IfOk result (λ count. (count ≤ length part.old) × (vec_len text.new ≡ vec_len text.old + count)) }
{
    let count = from.read(part)?;
    text.extend_from_slice(&part[0..count])?;
    Ok(count)
}

// The bytes of an input, or as many as are enough. A turn that brings none is the last, so there are at most `ENOUGH` turns. The loop stands here
// since `read_to_end` promises nothing of how much it adds from a reader that does not know its length, and reads on where it is interrupted.
fn input<R: Read>(heap: Global, from: &mut R) -> io::Result<Vec<u8>>
    ensures { IfOk result (λ text. vec_len text ≤ 65537) }
{
    let mut text = Vec::new(heap);
    while text.len() < ENOUGH {
        let mut part = [0u8; 4096];
        let room = part.len().min(ENOUGH - text.len());
        if read_part(from, &mut part[0..room], &mut text)? == 0 {
            break;
        }
    }
    Ok(text)
}

fn main(rt: HostRuntime) -> io::Result<()> {
    let heap = rt.alloc();
    let text = input(heap, &mut rt.stdin())?;
    rt.print(report(heap, &text)?)
}
