// Reads names from standard input, a line each. NAME.bin is an input of records, NAME.out the text that it is due to give. Prints of each whether
// the rehearsal gives just that text, and how many lines it has. The texts come from a model in another language that shares no code with this.
#![tactic(auto)]

use std::{fs, io};

fn main(rt: HostRuntime) -> io::Result<()> {
    for name in rt.lines(rt.alloc()) {
        let name = name?;
        let input = format!(in rt.alloc(); "{name}.bin")?;
        let due = format!(in rt.alloc(); "{name}.out")?;
        let due = fs::read(&rt, due.as_str())?;
        let text = rehearsal::rehearse(rt.alloc(), &fs::read(&rt, input.as_str())?)?;
        let found = if text == due { "as due" } else { "differs" };
        let count = text.iter().filter(|&&byte| byte == b'\n').count();
        println!(rt; "{name} {count} lines {found}")?;
    }
    Ok(())
}
