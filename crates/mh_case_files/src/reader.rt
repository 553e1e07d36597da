//! The cases of a file, read from its blocks.
use crate::block::{Block, blocks_of};
use crate::case::{Answer, Call, Case, Material};
use crate::fault::Fault;
use mh_base::{GroupName, NameError};
use std::alloc::Global;

/// What several cases share, by its name.
#[derive(Drop)]
struct Given {
    name: String,
    material: Material,
}

/// What was read so far.
#[derive(Drop)]
struct Reader {
    givens: Vec<Given>,
    cases: Vec<Case>,
    /// Whether a `given` is open, and no case.
    in_given: bool,
}

/// The cases of a text.
pub fn cases_of(alloc: Global, text: &str) -> Result<Vec<Case>, Fault> {
    let mut reader = Reader {
        givens: Vec::new(alloc),
        cases: Vec::new(alloc),
        in_given: false,
    };
    let blocks = blocks_of(alloc, text)?;
    for block in &blocks {
        reader.take(alloc, block)?;
    }
    are_whole(reader.cases.as_slice())?;
    let Reader { cases, .. } = reader;
    Ok(cases)
}

/// Each case has a call, and each call what is wanted of it.
fn are_whole(cases: &[Case]) -> Result<(), Fault> {
    for case in cases {
        if case.calls.is_empty() {
            return Err(Fault::Line(case.line, "this case has no `call`"));
        }
        for call in &case.calls {
            if !call.is_whole {
                return Err(Fault::Line(call.line, "this call has no `want`"));
            }
        }
    }
    Ok(())
}

impl Reader {
    fn take(&mut self, alloc: Global, block: &Block<'_>) -> Result<(), Fault> {
        match block.word {
            "given" => self.begin_given(alloc, block),
            "case" => self.begin_case(alloc, block),
            "with" => self.add_given(alloc, block),
            "file" | "octets" => add_file(alloc, self.open(block.line)?, block),
            "script" | "late" | "tags" | "output" => add_input(
                alloc,
                self.open(block.line)?,
                block,
            ),
            "call" => self.add_call(alloc, block),
            "lines" => self.choose_lines(alloc, block),
            "want" => self.want(alloc, block),
            _ => Err(Fault::Line(block.line, "no head begins with this word")),
        }
    }

    fn begin_given(&mut self, alloc: Global, block: &Block<'_>) -> Result<(), Fault> {
        is_named(block)?;
        if self.has_given(block.rest) {
            return Err(Fault::Line(block.line, "another `given` above has this name"));
        }
        let given = Given {
            name: String::from_str(alloc, block.rest)?,
            material: nothing(alloc),
        };
        self.givens.push(given)?;
        self.in_given = true;
        Ok(())
    }

    fn has_given(&self, name: &str) -> bool {
        for given in &self.givens {
            if given.name.as_str() == name {
                return true;
            }
        }
        false
    }

    fn begin_case(&mut self, alloc: Global, block: &Block<'_>) -> Result<(), Fault> {
        is_named(block)?;
        let case = Case {
            title: String::from_str(alloc, block.rest)?,
            line: block.line,
            material: nothing(alloc),
            calls: Vec::new(alloc),
        };
        self.cases.push(case)?;
        self.in_given = false;
        Ok(())
    }

    /// What files and inputs are added to.
    fn open(&mut self, line: usize) -> Result<&mut Material, Fault> {
        if self.in_given {
            if let Some(given) = self.givens.last_mut() {
                return Ok(&mut given.material);
            }
        } else if let Some(case) = self.cases.last_mut() {
            return Ok(&mut case.material);
        }
        Err(Fault::Line(line, "no `case` and no `given` stands above"))
    }

    /// Adds what a `given` holds to the case.
    fn add_given(&mut self, alloc: Global, block: &Block<'_>) -> Result<(), Fault> {
        is_named(block)?;
        if self.in_given {
            return Err(Fault::Line(block.line, "`with` stands in a case"));
        }
        let Some(case) = self.cases.last_mut() else {
            return Err(Fault::Line(block.line, "no `case` stands above"));
        };
        for given in &self.givens {
            if given.name.as_str() == block.rest {
                return add_material(alloc, &mut case.material, &given.material);
            }
        }
        Err(Fault::Line(block.line, "no `given` above has this name"))
    }

    fn add_call(&mut self, alloc: Global, block: &Block<'_>) -> Result<(), Fault> {
        is_named(block)?;
        let call = Call {
            line: block.line,
            text: String::from_str(alloc, block.rest)?,
            word: None,
            wanted: Answer {
                status: 0,
                written: Vec::new(alloc),
            },
            is_whole: false,
        };
        match self.cases.last_mut() {
            Some(case) if !self.in_given => {
                case.calls.push(call)?;
                Ok(())
            }
            _ => Err(Fault::Line(block.line, "no `case` stands above")),
        }
    }

    /// The last call, of which it is not yet said what is wanted.
    fn last_call(&mut self, line: usize) -> Result<&mut Call, Fault> {
        if let Some(case) = self.cases.last_mut() {
            if let Some(call) = case.calls.last_mut() {
                if !call.is_whole {
                    return Ok(call);
                }
            }
        }
        Err(Fault::Line(line, "no `call` waits for this"))
    }

    fn choose_lines(&mut self, alloc: Global, block: &Block<'_>) -> Result<(), Fault> {
        is_named(block)?;
        let word = String::from_str(alloc, block.rest)?;
        let call = self.last_call(block.line)?;
        call.word = Some(word);
        Ok(())
    }

    fn want(&mut self, alloc: Global, block: &Block<'_>) -> Result<(), Fault> {
        let Some(status) = status_of(block.rest) else {
            return Err(Fault::Line(
                block.line,
                "`want` stands before an exit status, and perhaps `octets`",
            ));
        };
        let written = Vec::from_slice(alloc, block.bytes.as_slice())?;
        let call = self.last_call(block.line)?;
        call.wanted = Answer { status, written };
        call.is_whole = true;
        Ok(())
    }
}

/// The exit status that stands behind `want`.
fn status_of(rest: &str) -> Option<u8> {
    let status = rest.strip_suffix(" octets").unwrap_or(rest);
    status.parse::<u8>().ok()
}

/// A head with a rest, and with no lines under it.
fn is_named(block: &Block<'_>) -> Result<(), Fault> {
    if block.rest.is_empty() {
        return Err(Fault::Line(block.line, "words are missing behind this one"));
    }
    if block.has_lines {
        return Err(Fault::Line(block.line, "no lines stand under this head"));
    }
    Ok(())
}

fn nothing(alloc: Global) -> Material {
    Material {
        files: Vec::new(alloc),
        script: None,
        late: None,
        tags: None,
        output: None,
    }
}

fn add_file(alloc: Global, material: &mut Material, block: &Block<'_>) -> Result<(), Fault> {
    let name = match GroupName::of_path(alloc, block.rest.as_bytes()) {
        Ok(name) => name,
        Err(NameError::BadName) => {
            return Err(Fault::Line(block.line, "no file of a service has this name"));
        }
        Err(NameError::NoMemory) => return Err(Fault::NoMemory),
    };
    let bytes = Vec::from_slice(alloc, block.bytes.as_slice())?;
    material.files.push((name, bytes))?;
    Ok(())
}

fn add_input(alloc: Global, material: &mut Material, block: &Block<'_>) -> Result<(), Fault> {
    if !block.rest.is_empty() {
        return Err(Fault::Line(block.line, "no words stand behind this one"));
    }
    let bytes = Vec::from_slice(alloc, block.bytes.as_slice())?;
    match block.word {
        "script" => material.script = Some(bytes),
        "late" => material.late = Some(bytes),
        "tags" => material.tags = Some(bytes),
        _ => material.output = Some(bytes),
    }
    Ok(())
}

/// Adds the files, and the inputs that are there.
fn add_material(alloc: Global, material: &mut Material, given: &Material) -> Result<(), Fault> {
    for (name, bytes) in &given.files {
        let file = (name.clone()?, Vec::from_slice(alloc, bytes.as_slice())?);
        material.files.push(file)?;
    }
    copy_over(alloc, &mut material.script, &given.script)?;
    copy_over(alloc, &mut material.late, &given.late)?;
    copy_over(alloc, &mut material.tags, &given.tags)?;
    copy_over(alloc, &mut material.output, &given.output)
}

fn copy_over(alloc: Global, to: &mut Option<Vec<u8>>, from: &Option<Vec<u8>>) -> Result<(), Fault> {
    if let Some(bytes) = from {
        *to = Some(Vec::from_slice(alloc, bytes.as_slice())?);
    }
    Ok(())
}
