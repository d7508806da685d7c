//! The text that tells which words the calculator takes.
//!
//! [`usage`] makes it. Nothing is claimed of its wording.
#![tactic(auto)]

use clap::Command;
use reply_text::Text;
use row_core::Memory;
use std::alloc::{AllocError, Global};

/// The last line, which names the manual page.
const MANUAL: &str = "The manual page is docs/polycalc.1: man -l docs/polycalc.1";

/// The words and what each does.
const WORDS: [(&str, &str); 4] = [
    ("run", "Run the script on standard input"),
    ("ine2ext", "Convert an H-file into its V-file"),
    ("ext2ine", "Convert a V-file into its H-file"),
    ("sample", "Convert the sample of N rows and write its sizes"),
];

/// The usage text of the program, with a line for each of its words.
pub fn usage(alloc: Global) -> Result<Text, Memory> {
    let rendered = command(alloc)?.render_help()?;
    let mut text = Text::new(alloc);
    text.push(rendered.as_bytes())?;
    Ok(text)
}

/// The program with its words as subcommands.
fn command(alloc: Global) -> Result<Command<'static>, AllocError> {
    let mut command = Command::new(alloc, "polycalc")
        .about("A calculator of convex polyhedra")
        .after_help(MANUAL)
        .subcommand_required(true)
        .disable_help_flag(true)
        .disable_help_subcommand(true);
    for (word, about) in WORDS {
        command = command.subcommand(Command::new(alloc, word).about(about))?;
    }
    Ok(command)
}
