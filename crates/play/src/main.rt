//! Reads a script of calls from standard input, makes them, and prints what each answers.

#![tactic(auto)]

mod command;
mod done;
mod draw;
mod memory;
mod name;
mod player;
mod script;
mod sheet;

use done::{BadLine, Done, Picture};
use player::Player;
use std::fs;
use std::io::{BufRead, BufReader};

fn main(rt: HostRuntime) -> anyhow::Result<()> {
    run(&rt)
}

/// Plays each line of the script, and then prints how many there were of what.
fn run(rt: &HostRuntime) -> anyhow::Result<()> {
    let heap = rt.alloc();
    let mut player = Player::new(heap);
    for line in BufReader::new(heap, rt.stdin())?.lines(heap) {
        let line = line?;
        show(rt, player.play_line(line.as_str()))?;
    }
    rt.println(player.tally())?;
    Ok(())
}

/// Prints what a line came to.
fn show(rt: &HostRuntime, played: Result<Done, BadLine<'_>>) -> anyhow::Result<()> {
    match played {
        Ok(Done::Drawn(picture)) => write_picture(rt, picture)?,
        Ok(done) => rt.print(done)?,
        Err(bad_line) => rt.println(bad_line)?,
    }
    Ok(())
}

/// Writes a picture, or says that it could not be written.
fn write_picture(rt: &HostRuntime, picture: Picture) -> anyhow::Result<()> {
    if fs::write(rt, picture.file.as_str(), picture.text.as_str()).is_err() {
        rt.println("the picture could not be written")?;
    }
    Ok(())
}
