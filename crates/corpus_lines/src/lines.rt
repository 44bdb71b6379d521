// A line of output for each line of input.
use crate::words::bytes_of;
use std::alloc::Global;
use std::io::{BufRead, BufReader, Read, Write};

// Writes the answer to each line as soon as it is there. The first error ends it.
pub fn answer_lines<F: FnMut(&str, &mut Vec<u8>) -> anyhow::Result<()>>(
    heap: Global,
    input: impl Read + Drop,
    output: &mut impl Write,
    mut answer: F,
) -> anyhow::Result<()>
    requires { F.IsAlwaysCallable answer }
{
    let mut out = Vec::new(heap);
    for line in BufReader::new(heap, input)?.lines(heap) {
        out.clear();
        answer(line?.as_str(), &mut out)?;
        out.push(b'\n')?;
        output.write_all(out.as_slice())?;
    }
    Ok(())
}

// The same where each line spells a text in hex, and the text is answered.
pub fn answer_hex_lines<F: FnMut(&[u8], &mut Vec<u8>) -> anyhow::Result<()>>(
    heap: Global,
    input: impl Read + Drop,
    output: &mut impl Write,
    mut answer: F,
) -> anyhow::Result<()>
    requires { F.IsAlwaysCallable answer }
{
    answer_lines(
        heap,
        input,
        output,
        |line: &str, out: &mut Vec<u8>| -> anyhow::Result<()>
            requires { F.IsAlwaysCallable answer }
            ensures { F.IsAlwaysCallable answer.exit }
        {
            let text = bytes_of(heap, line.as_bytes(), "a line is not in hex")?;
            answer(text.as_slice(), out)
        },
    )
}
