// The function that the program `replay` keeps, which grows line by line.
#![tactic(auto)]

ghost use Rattle.std.specs.Prelude.{◌≡◌, [], IfErr};
ghost use Rattle.protocol.specs.declared.Fault.TheVariants.{Bad};

use fields::Fields;
use protocol::{BYTE, Fault, NoCommand};
use std::alloc::Global;
use std::str::FromStr;

/// The most instructions, registers and targets of all instructions, registers of the function, and numbers for its blocks.
const MOST_KINDS: usize = 65535;

const MOST_REFS: usize = 65536;

const MOST_CLASSES: usize = 16384;

const MOST_BLOCKS: usize = 8192;

/// A function, as the front door is lent it.
#[derive(Drop)]
pub struct Function {
    pub kinds: Vec<u8>,
    pub ends: Vec<u32>,
    pub refs: Vec<u32>,
    pub blocks: Vec<u32>,
    pub classes: Vec<u8>,
}

/// The commands that make a function.
#[derive(Clone, Copy)]
pub enum Command {
    Function,
    Instruction,
}

impl FromStr for Command {
    type Err = NoCommand;

    fn from_str(name: &str) -> Result<Command, NoCommand> {
        match name {
            "func" => Ok(Command::Function),
            "inst" => Ok(Command::Instruction),
            _ => Err(NoCommand),
        }
    }
}

// The low byte of a word.
fn low_byte(x: u64) -> u8 {
    (x & 0xff) as u8
}

// A place in the list of registers and targets.
fn place(x: usize) -> Result<u32, Fault> {
    u32::try_from(x).map_err(|_| Fault::Bad)
}

impl Function {
    ghost use Rattle.replay_code.specs.Inner.Kept.{SameFunction};

    /// A function without registers, blocks and instructions.
    pub fn new(alloc: Global) -> Function
        ensures calls { (result.kinds.items ≡ []) × (result.ends.items ≡ []) × (result.refs.items ≡ []) }
        ensures rest { (result.blocks.items ≡ []) × (result.classes.items ≡ []) }
    {
        Function {
            kinds: Vec::new(alloc),
            ends: Vec::new(alloc),
            refs: Vec::new(alloc),
            blocks: Vec::new(alloc),
            classes: Vec::new(alloc),
        }
    }

    // Classes and blocks: a function without instructions.
    fn read(line: &mut Fields) -> Result<Function, Fault> {
        let classes = line.words(BYTE, MOST_CLASSES)?;
        let blocks = line.pairs(MOST_BLOCKS)?;
        let alloc = line.alloc();
        Ok(Function {
            kinds: Vec::new(alloc),
            ends: Vec::new(alloc),
            refs: Vec::new(alloc),
            blocks,
            classes: classes.iter().map(|x| low_byte(*x)).collect(alloc)?,
        })
    }

    // An instruction more: its kind, registers written, registers read and targets.
    fn add(&mut self, line: &mut Fields) -> Result<(), Fault>
        ensures { IfErr result (λ e. e ≡ Bad → SameFunction self.old self.new) }
    {
        if MOST_KINDS <= self.kinds.len() {
            return Err(Fault::Bad);
        }
        let kind = line.byte()?;
        let from = self.refs.len();
        let room = MOST_REFS.saturating_sub(from);
        let written = line.halves(room)?;
        let room = room.saturating_sub(written.len());
        let read = line.halves(room)?;
        let targets = line.halves(room.saturating_sub(read.len()))?;
        let a = from.saturating_add(written.len());
        let b = a.saturating_add(read.len());
        let c = b.saturating_add(targets.len());
        let ends = [place(a)?, place(b)?, place(c)?];
        if self.ends.is_empty() {
            // Room for the ends of all instructions at once: a list that grows by doubling takes more.
            self.ends = Vec::with_capacity(line.alloc(), 3 * MOST_KINDS)?;
        }
        self.kinds.push(kind)?;
        self.ends.extend_from_slice(&ends)?;
        self.refs.extend_from_slice(written.as_slice())?;
        self.refs.extend_from_slice(read.as_slice())?;
        self.refs.extend_from_slice(targets.as_slice())?;
        Ok(())
    }

    /// Runs a line that makes the function. One that can't be read, or that finds no room, leaves it as it was.
    pub fn run(&mut self, rt: &impl Print, command: Command, line: &mut Fields) -> Result<(), Fault>
        ensures refused { IfErr result (λ e. e ≡ Bad → SameFunction self.old self.new) }
    {
        match command {
            Command::Function => *self = Function::read(line)?,
            Command::Instruction => self.add(line)?,
        }
        println!(rt; "0")?;
        Ok(())
    }
}
