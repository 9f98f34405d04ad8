// What the commands about frames print.
use crate::trouble::{Trouble, declined};
use frame::frame::Frame;
use position::check::check_position;
use task::mask::contains;
use task::source::TaskSource;

fn frame_of<S: TaskSource>(source: &S, mask: u32) -> Result<Frame, Trouble> {
    let mut frame = Frame::least();
    frame.set(source, mask).map_err(declined)?;
    Ok(frame)
}

// The size of the frame, and its variables.
pub fn show<R: Print, S: TaskSource>(rt: &R, source: &S, mask: u32) -> Result<(), Trouble> {
    let size = frame_of(source, mask)?.size();
    print!(rt; "frame: size {size}, variables")?;
    for v in (0..source.variables()).filter(|v| contains(mask, *v)) {
        print!(rt; " {v}")?;
    }
    println!(rt; "")?;
    Ok(())
}

pub fn code<R: Print, S: TaskSource>(
    rt: &R,
    source: &S,
    mask: u32,
    values: &[u16],
) -> Result<(), Trouble> {
    let frame = frame_of(source, mask)?;
    check_position(source, values).map_err(declined)?;
    let code = frame.code(values);
    println!(rt; "code: {code}")?;
    Ok(())
}

pub fn step<R: Print, S: TaskSource>(
    rt: &R,
    source: &S,
    mask: u32,
    code: usize,
    operator: usize,
) -> Result<(), Trouble> {
    let frame = frame_of(source, mask)?;
    if code >= frame.size() {
        println!(rt; "step: no such code")?;
    } else if operator >= source.operators() {
        println!(rt; "step: no such operator")?;
    } else {
        match frame.step(source, operator, code) {
            Some(next) => println!(rt; "step: {next}")?,
            None => println!(rt; "step: does not apply")?,
        }
    }
    Ok(())
}
