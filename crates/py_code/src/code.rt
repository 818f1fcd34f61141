//! Code: units with all that they refer to.

ghost use Rattle.std.specs.Prelude.{◌≡◌, drop, unwrap_or, vec_len};
ghost use Rattle.py_code.specs.Units.{decoded_from};

use crate::flags::CodeFlags;
use crate::instruction::Instruction;
use crate::literal::LiteralList;
use crate::names::NameId;
use crate::unit::{CodeUnit, OpArg, OpArgState};
use bitflags::Flags;

/// What a code is made of. Names are places in a table that stands beside the codes.
#[derive(Drop)]
pub struct CodeObject {
    pub instructions: Vec<CodeUnit>,
    /// The source line of each unit.
    pub locations: Vec<u32>,
    pub flags: CodeFlags,
    /// How many parameters take a positional argument alone.
    pub posonlyarg_count: u32,
    /// How many parameters take a positional argument, those of `posonlyarg_count` among them.
    pub arg_count: u32,
    /// How many parameters take a keyword argument alone.
    pub kwonlyarg_count: u32,
    pub source_path: NameId,
    /// None for code without a source.
    pub first_line_number: Option<u32>,
    /// How many values the stack holds at most.
    pub max_stackdepth: u32,
    pub obj_name: NameId,
    /// For each cell the place of the parameter that it takes over, or -1.
    pub cell2arg: Vec<i32>,
    pub constants: LiteralList,
    pub names: Vec<NameId>,
    pub varnames: Vec<NameId>,
    pub cellvars: Vec<NameId>,
    pub freevars: Vec<NameId>,
}

/// A unit behind its prefixes.
#[derive(Clone, Copy, Debug, PartialEq, Eq)]
pub struct Decoded {
    pub op: Instruction,
    /// The unit's argument with that of its prefixes.
    pub arg: OpArg,
    /// The place behind the unit.
    pub next: usize,
}

/// A code that can be run.
#[derive(Drop)]
pub struct PyCode {
    pub code: CodeObject,
}

impl PyCode {
    /// The code object as a code that can be run.
    pub fn new(code: CodeObject) -> PyCode
        ensures { result.code ≡ code }
    {
        PyCode { code }
    }

    /// The unit at a place, or the one behind it where prefixes stand there. None where the
    /// units end first.
    pub fn decoded(&self, at: usize) -> Option<Decoded>
        ensures { result ≡ decoded_from 0 at (drop at self.now.code.instructions.items) }
    {
        let mut state = OpArgState::new();
        for place in at..self.code.instructions.len() {
            let unit = self.code.instructions[place];
            let arg = state.extend(unit.arg);
            if !unit.op.is_prefix() {
                return Some(Decoded {
                    op: unit.op,
                    arg,
                    next: place + 1,
                });
            }
        }
        None
    }

    /// How many parameters take a positional argument alone.
    pub fn co_posonlyargcount(&self) -> u32
        ensures { result ≡ self.now.code.posonlyarg_count }
    {
        self.code.posonlyarg_count
    }

    /// How many parameters take a positional argument.
    pub fn co_argcount(&self) -> u32
        ensures { result ≡ self.now.code.arg_count }
    {
        self.code.arg_count
    }

    /// How many parameters take a keyword argument alone.
    pub fn co_kwonlyargcount(&self) -> u32
        ensures { result ≡ self.now.code.kwonlyarg_count }
    {
        self.code.kwonlyarg_count
    }

    /// How many values the stack holds at most.
    pub fn co_stacksize(&self) -> u32
        ensures { result ≡ self.now.code.max_stackdepth }
    {
        self.code.max_stackdepth
    }

    /// The line that the code begins at, 0 for code without a source.
    pub fn co_firstlineno(&self) -> u32
        ensures { result ≡ unwrap_or self.now.code.first_line_number 0 }
    {
        self.code.first_line_number.unwrap_or(0)
    }

    /// How many locals there are.
    pub fn co_nlocals(&self) -> usize
        ensures { result ≡ vec_len self.now.code.varnames }
    {
        self.code.varnames.len()
    }

    /// The number that stands for the flags.
    pub fn co_flags(&self) -> u16
        ensures { result ≡ self.now.code.flags.0 }
    {
        self.code.flags.bits()
    }

    /// The file that the code comes from.
    pub fn co_filename(&self) -> NameId
        ensures { result ≡ self.now.code.source_path }
    {
        self.code.source_path
    }

    /// The name of the code.
    pub fn co_name(&self) -> NameId
        ensures { result ≡ self.now.code.obj_name }
    {
        self.code.obj_name
    }

    /// The names that instructions refer to.
    pub fn co_names(&self) -> &[NameId]
        ensures { result.now ≡ self.now.code.names.items }
    {
        self.code.names.as_slice()
    }

    /// The names of the locals, the parameters first.
    pub fn co_varnames(&self) -> &[NameId]
        ensures { result.now ≡ self.now.code.varnames.items }
    {
        self.code.varnames.as_slice()
    }

    /// The names of the locals that inner code refers to.
    pub fn co_cellvars(&self) -> &[NameId]
        ensures { result.now ≡ self.now.code.cellvars.items }
    {
        self.code.cellvars.as_slice()
    }

    /// The names that the code refers to in the code around it.
    pub fn co_freevars(&self) -> &[NameId]
        ensures { result.now ≡ self.now.code.freevars.items }
    {
        self.code.freevars.as_slice()
    }

    /// The constants that instructions refer to.
    pub fn co_consts(&self) -> &LiteralList
        ensures { result.now ≡ self.now.code.constants }
    {
        &self.code.constants
    }
}
