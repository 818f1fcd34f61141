//! A reader of lines: what was read so far, and whether one more line may stand behind it.

ghost use Rattle.std.specs.Prelude.{◌≡◌, [], IfOk, OnOk, None};
ghost use Rattle.py_lines.specs.declared.header.Header.TheVariants.{Class as ClassHeader, Code as CodeHeader, Manager as ManagerHeader};
ghost use Rattle.py_lines.specs.Views.{head_of, line_of, plain_of};
ghost use Rattle.py_lines.specs.Line.{Drive as DrivenLine, End as EndLine, Header as HeaderLine, Opens as OpensLine, Plain as PlainLine, Raw as RawLineOf, Turns as TurnsLine};
ghost use Rattle.py_grammar.specs.Reader.{start};
ghost use Rattle.py_grammar.specs.Reading.{header_of, state_of, ComesTo, IsDeclared, IsHeaded, IsTaken};
ghost use Rattle.py_grammar.specs.Tables.{TableIsKept};

use crate::fault::ParseFault;
use crate::open_body::{Ended, FunctionHeader, OpenBody};
use crate::open_item::OpenItem;
use crate::open_raw::OpenRaw;
use crate::rules::{may_declare, may_derive, may_drive, may_manage};
use crate::script::{DeclList, Declaration, DriveList, Script};
use crate::table::Table;
use py_code::{NoMemory, PyText};
use py_lines::{DriveLine, Head, Header, Line, Plain, RawLine, Turn};
use py_tree::ParamList;
use std::alloc::Global;
use std::mem;

/// What was read so far.
#[derive(Drop)]
pub struct Reader {
    whole: Script,
    inside: Option<OpenItem>,
    /// The names of the declarations, and that of an open body.
    table: Table,
}

/// A script that says nothing.
fn no_script(alloc: Global) -> Script
    ensures declarations { result.declarations ≡ [] }
    ensures drives { result.drives ≡ [] }
{
    Script {
        text: PyText::new(alloc),
        declarations: DeclList::new(alloc),
        drives: DriveList::new(alloc),
    }
}

impl Reader {
    /// A reader that has read nothing.
    pub fn new(alloc: Global) -> Reader
        ensures state { state_of result ≡ start }
        ensures kept { TableIsKept result }
    {
        Reader {
            whole: no_script(alloc),
            inside: None,
            table: Table::new(alloc),
        }
    }

    /// Declares what the open item is at its end, where one is open.
    fn declare(&mut self, alloc: Global) -> Result<bool, NoMemory>
        requires { TableIsKept self.old }
        ensures taken { IfOk result (IsDeclared self.old self.new) }
        ensures kept { OnOk result (TableIsKept self.new) }
    {
        match self.inside.take() {
            Some(OpenItem::Body(body)) => {
                let declaration = Declaration::Function(body.function());
                self.whole.declarations.push(declaration)?;
                Ok(true)
            }
            Some(OpenItem::Raw(raw)) => {
                self.table.add_function(raw.name())?;
                let declaration = Declaration::Raw(raw.block(alloc));
                self.whole.declarations.push(declaration)?;
                Ok(true)
            }
            None => Ok(false),
        }
    }

    /// Takes an `end`, where something is open and it may stand there; the number of its line is kept nowhere.
    fn end(&mut self, alloc: Global) -> Result<bool, NoMemory>
        requires { TableIsKept self.old }
        ensures taken { IfOk result (IsTaken self.old self.new 0 EndLine) }
        ensures kept { OnOk result (TableIsKept self.new) }
    {
        match &mut self.inside {
            Some(OpenItem::Body(body)) => match body.end()? {
                Ended::Body => self.declare(alloc),
                Ended::Block => Ok(true),
                Ended::Nothing => Ok(false),
            },
            Some(OpenItem::Raw(raw)) => {
                if !raw.is_whole() {
                    return Ok(false);
                }
                self.declare(alloc)
            }
            None => Ok(false),
        }
    }

    /// Takes a plain line, where a body is open and it may stand there.
    fn hold(&mut self, number: u32, plain: Plain) -> Result<bool, NoMemory>
        requires { TableIsKept self.old }
        ensures taken { IfOk result (IsTaken self.old self.new number (PlainLine (plain_of plain))) }
        ensures kept { OnOk result (TableIsKept self.new) }
    {
        match &mut self.inside {
            Some(OpenItem::Body(body)) => body.hold(number, plain),
            Some(OpenItem::Raw(_)) | None => {
                mem::drop(plain);
                Ok(false)
            }
        }
    }

    /// Takes a line that opens a block, likewise.
    fn open_block(&mut self, alloc: Global, number: u32, head: Head) -> Result<bool, NoMemory>
        requires { TableIsKept self.old }
        ensures taken { IfOk result (IsTaken self.old self.new number (OpensLine (head_of head))) }
        ensures kept { OnOk result (TableIsKept self.new) }
    {
        match &mut self.inside {
            Some(OpenItem::Body(body)) => body.open(alloc, number, head),
            Some(OpenItem::Raw(_)) | None => {
                mem::drop(head);
                Ok(false)
            }
        }
    }

    /// Takes a line that turns a block to its next suite, likewise.
    fn turn_block(&mut self, alloc: Global, number: u32, turn: Turn) -> Result<bool, NoMemory>
        requires { TableIsKept self.old }
        ensures taken { IfOk result (IsTaken self.old self.new number (TurnsLine turn)) }
        ensures kept { OnOk result (TableIsKept self.new) }
    {
        match &mut self.inside {
            Some(OpenItem::Body(body)) => body.turn(alloc, number, turn),
            Some(OpenItem::Raw(_)) | None => {
                mem::drop(turn);
                Ok(false)
            }
        }
    }

    /// Opens the body of a function, where that may be declared.
    #[tactic(auto, using(crate::proofs::Tables::may_head_names, crate::proofs::Tables::table_open))]
    fn open_function(
        &mut self,
        alloc: Global,
        number: u32,
        header: FunctionHeader,
    ) -> Result<bool, NoMemory>
        requires kept { TableIsKept self.old }
        requires outside { self.old.inside ≡ None }
        ensures taken { IfOk result (IsHeaded self.old self.new number (header_of header)) }
        ensures kept { OnOk result (TableIsKept self.new) }
    {
        if !may_declare(&self.table.names, &header.name, &header.params) {
            return Ok(false);
        }
        self.table.add_function(&header.name)?;
        self.inside = Some(OpenItem::Body(OpenBody::new(alloc, number, header)));
        Ok(true)
    }

    /// Opens a raw code, likewise.
    #[tactic(auto, using(crate::proofs::Tables::may_head_names, crate::proofs::Tables::new_at_head))]
    fn open_raw(
        &mut self,
        alloc: Global,
        number: u32,
        name: PyText,
        params: ParamList,
    ) -> Result<bool, NoMemory>
        requires kept { TableIsKept self.old }
        requires outside { self.old.inside ≡ None }
        ensures taken { IfOk result (IsHeaded self.old self.new number (CodeHeader name params)) }
        ensures kept { OnOk result (TableIsKept self.new) }
    {
        if !may_declare(&self.table.names, &name, &params) {
            return Ok(false);
        }
        self.inside = Some(OpenItem::Raw(OpenRaw::new(alloc, number, name, params)));
        Ok(true)
    }

    /// Declares a class, where it may be declared; the number of its line is kept nowhere.
    #[tactic(auto, using(crate::proofs::Tables::may_derive_names))]
    fn declare_class(&mut self, name: PyText, base: PyText) -> Result<bool, NoMemory>
        requires kept { TableIsKept self.old }
        requires outside { self.old.inside ≡ None }
        ensures taken { IfOk result (IsHeaded self.old self.new 0 (ClassHeader name base)) }
        ensures kept { OnOk result (TableIsKept self.new) }
    {
        if !may_derive(&self.table, &name, &base) {
            return Ok(false);
        }
        self.table.add_class(&name)?;
        self.whole
            .declarations
            .push(Declaration::Class(name, base))?;
        Ok(true)
    }

    /// Declares a manager, likewise.
    #[tactic(auto, using(crate::proofs::Tables::may_manage_names))]
    fn declare_manager(
        &mut self,
        name: PyText,
        enter: PyText,
        exit: PyText,
    ) -> Result<bool, NoMemory>
        requires kept { TableIsKept self.old }
        requires outside { self.old.inside ≡ None }
        ensures taken { IfOk result (IsHeaded self.old self.new 0 (ManagerHeader name enter exit)) }
        ensures kept { OnOk result (TableIsKept self.new) }
    {
        if !may_manage(&self.table, &name, &enter, &exit) {
            return Ok(false);
        }
        self.table.add_manager(&name)?;
        self.whole
            .declarations
            .push(Declaration::Manager(name, enter, exit))?;
        Ok(true)
    }

    /// Takes a header, where nothing is open and it may stand there.
    fn take_header(&mut self, alloc: Global, number: u32, header: Header) -> Result<bool, NoMemory>
        requires { TableIsKept self.old }
        ensures taken { IfOk result (IsTaken self.old self.new number (HeaderLine header)) }
        ensures kept { OnOk result (TableIsKept self.new) }
    {
        if self.inside.is_some() {
            mem::drop(header);
            return Ok(false);
        }
        match header {
            Header::Def(kind, name, params) => {
                let header = FunctionHeader { kind, name, params };
                self.open_function(alloc, number, header)
            }
            Header::Code(name, params) => self.open_raw(alloc, number, name, params),
            Header::Class(name, base) => self.declare_class(name, base),
            Header::Manager(name, enter, exit) => self.declare_manager(name, enter, exit),
        }
    }

    /// Takes a line of a raw code, where one is open and it may stand there.
    #[tactic(auto, using(crate::proofs::Tables::code_taken))]
    fn take_raw(&mut self, number: u32, line: RawLine) -> Result<bool, NoMemory>
        requires { TableIsKept self.old }
        ensures taken { IfOk result (IsTaken self.old self.new number (RawLineOf line)) }
        ensures kept { OnOk result (TableIsKept self.new) }
    {
        match &mut self.inside {
            Some(OpenItem::Raw(raw)) => raw.push(&self.table.functions, number, line),
            Some(OpenItem::Body(_)) | None => {
                mem::drop(line);
                Ok(false)
            }
        }
    }

    /// Takes a drive, where nothing is open and it may stand there; the number of its line is kept nowhere.
    fn take_drive(&mut self, drive: DriveLine) -> Result<bool, NoMemory>
        requires { TableIsKept self.old }
        ensures taken { IfOk result (IsTaken self.old self.new 0 (DrivenLine drive)) }
        ensures kept { OnOk result (TableIsKept self.new) }
    {
        if self.inside.is_some() || !may_drive(&self.table, &self.whole, &drive) {
            mem::drop(drive);
            return Ok(false);
        }
        self.whole.drives.push(drive)?;
        Ok(true)
    }

    /// Takes one more line that says something, where that may stand here. Behind a line that it refuses, and where memory ran out, what was
    /// read stands for nothing.
    pub fn push_line(&mut self, alloc: Global, number: u32, line: Line) -> Result<bool, NoMemory>
        requires { TableIsKept self.old }
        ensures taken { IfOk result (IsTaken self.old self.new number (line_of line)) }
        ensures kept { OnOk result (TableIsKept self.new) }
    {
        match line {
            Line::End => self.end(alloc),
            Line::Plain(plain) => self.hold(number, plain),
            Line::Opens(head) => self.open_block(alloc, number, head),
            Line::Turns(turn) => self.turn_block(alloc, number, turn),
            Line::Header(header) => self.take_header(alloc, number, header),
            Line::Drive(drive) => self.take_drive(drive),
            Line::Raw(raw) => self.take_raw(number, raw),
        }
    }

    /// Hands out the script where nothing is open, and leaves an empty one in its place, for which it takes the allocator; else the line
    /// behind the last one is the bad one, which has this number.
    pub fn finish(&mut self, alloc: Global, number: u32) -> Result<Script, ParseFault>
        ensures { ComesTo (state_of self.old) number [] result }
    {
        match &self.inside {
            None => Ok(mem::replace(&mut self.whole, no_script(alloc))),
            Some(_) => Err(ParseFault::Malformed(u64::from(number))),
        }
    }
}
