//! The text of a script that was tried.
use crate::stimulus::Stimulus;
use mh_script::key_name;
use mh_service::Service;
use mh_told::text::Text;
use std::alloc::{AllocError, Global};

/// How the machine is run behind each input.
#[derive(Clone, Copy)]
pub enum Running {
    /// Until nothing is left to do.
    Whole,
    /// So many steps.
    Steps(u32),
}

/// The script of these stimuli, a command a line.
pub fn script_text(
    alloc: Global,
    script: &[Stimulus],
    running: Running,
    service: &Service,
) -> Result<Text, AllocError> {
    let mut text = Text::new(alloc);
    put_running(&mut text, running)?;
    for stimulus in script {
        put_stimulus(&mut text, *stimulus, service)?;
        put_running(&mut text, running)?;
    }
    Ok(text)
}

fn put_running(text: &mut Text, running: Running) -> Result<(), AllocError> {
    match running {
        Running::Whole => text.put(b"run\n"),
        Running::Steps(steps) => put_number_line(text, b"step ", steps),
    }
}

fn put_stimulus(text: &mut Text, stimulus: Stimulus, service: &Service) -> Result<(), AllocError> {
    match stimulus {
        Stimulus::Key(key) => put_line(text, b"key ", key_name(key)),
        Stimulus::Tick(length) => put_number_line(text, b"tick ", length),
        Stimulus::Stream(tag) => put_number_line(text, b"stream ", tag.unsigned_abs()),
        Stimulus::Engine(number) => put_number_line(text, b"engine ", number.unsigned_abs()),
        Stimulus::Scene(place) => match service.late().get(place) {
            Some(name) => put_line(text, b"scene ", name.as_bytes()),
            None => Ok(()),
        },
    }
}

fn put_line(text: &mut Text, command: &[u8], word: &[u8]) -> Result<(), AllocError> {
    text.put(command)?;
    text.put(word)?;
    text.put(b"\n")
}

fn put_number_line(text: &mut Text, command: &[u8], number: u32) -> Result<(), AllocError> {
    text.put(command)?;
    text.put_number(u64::from(number))?;
    text.put(b"\n")
}
