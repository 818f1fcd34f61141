//! The rules on lines that look at what stands around them.

ghost use Rattle.std.specs.Prelude.{◌≡◌, length, bytes_eq, map, None};
ghost use Rattle.std.specs.List.{list_any, list_all};
ghost use Rattle.py_objects.specs.ErrorKinds.{name_of};
ghost use Rattle.py_tree.specs.Tree.{Operate};
ghost use Rattle.py_tree.specs.ExprViews.{expr_of, exprs_of};
ghost use Rattle.py_tree.specs.Operators.{way_of};
ghost use Rattle.py_lines.specs.Views.{head_of, plain_of};
ghost use Rattle.py_grammar.specs.Grammar.{declared_as};
ghost use Rattle.py_grammar.specs.Script.{decls_of};
ghost use Rattle.py_grammar.specs.Rules.{is_among as is_among_names, all_differ as do_all_differ, is_builtin_class as is_builtin};
ghost use Rattle.py_grammar.specs.Rules.{may_begin as may_be_begun, may_compute as may_be_computed, may_compute_all as all_may_be_computed, may_drive as may_be_driven, may_hold as may_be_held, may_open as may_be_opened, may_operate as may_be_operated, may_yield as may_be_yielded_in, numbers_drive as numbers_a_drive};
ghost use Rattle.py_grammar.specs.Tables.{is_base_by, is_drivable_by, is_new_by, is_thrown_by, may_derive_by, may_drive_by, may_head, may_manage_by, table_of};

use crate::script::Script;
use crate::table::Table;
use py_code::{NameSet, PyText, same_text};
use py_lines::{DriveAtom, DriveLine, Head, Plain};
use py_objects::ErrorKind;
use py_tree::{BodyKind, Expr, ExprList, Operator, ParamList};

/// How many blocks may be open at once, the body among them.
const MOST_BLOCKS: usize = 64;

/// Where a statement stands.
#[derive(Clone, Copy, Debug, PartialEq, Eq)]
pub struct Inside {
    /// What the body is of.
    pub kind: BodyKind,
    /// How many blocks are open, the body among them.
    pub blocks: usize,
    /// Whether a loop is one of them.
    pub in_loop: bool,
}

fn is_among(name: &PyText, names: &[PyText]) -> bool
    ensures { result ≡ is_among_names name.now names.now }
{
    names.iter().any(|other| same_text(name, other))
}

fn all_differ(names: &[PyText]) -> bool
    ensures { result ≡ do_all_differ names.now }
{
    let mut rest = names;
    while let Some((first, more)) = rest.split_first() {
        if is_among(first, more) {
            return false;
        }
        rest = more;
    }
    true
}

/// Whether a name is that of one of these classes.
fn is_name_of(name: &PyText, kinds: &[ErrorKind]) -> bool
    ensures { result ≡ list_any (λ kind. bytes_eq name.now (name_of kind)) kinds.now }
{
    kinds.iter().any(|kind| kind.is_name(name))
}

/// Whether a name is one of the classes that are there without a declaration.
fn is_builtin_class(name: &PyText) -> bool
    ensures { result ≡ is_builtin name.now }
{
    is_name_of(name, ErrorKind::all())
}

/// Whether a function may have this name and these parameters, behind declarations with the names of the table.
pub fn may_declare(names: &NameSet, name: &PyText, params: &ParamList) -> bool
    ensures { result ≡ may_head names.now name.now params.now }
{
    // The count comes first, since to compare names in pairs takes long where there are many.
    params.len() <= 255 && is_new(names, name) && all_differ(params.as_slice())
}

/// Whether a declaration may have this name, behind those with the names of the table.
fn is_new(names: &NameSet, name: &PyText) -> bool
    ensures { result ≡ is_new_by names.now name.now }
{
    !names.contains(name) && !is_builtin_class(name)
}

/// Whether a name is that of one of these classes, or of a built-in one.
fn is_base(classes: &NameSet, name: &PyText) -> bool
    ensures { result ≡ is_base_by classes.now name.now }
{
    classes.contains(name) || is_builtin_class(name)
}

/// Whether a class may have this name and this base, behind declarations with the names of the table.
pub fn may_derive(table: &Table, name: &PyText, base: &PyText) -> bool
    ensures { result ≡ may_derive_by table.now name.now base.now }
{
    is_new(&table.names, name) && is_base(&table.classes, base)
}

/// Whether a manager may have this name, this enter and this exit.
pub fn may_manage(table: &Table, name: &PyText, enter: &PyText, exit: &PyText) -> bool
    ensures { result ≡ may_manage_by table.now name.now enter.now exit.now }
{
    is_new(&table.names, name) && table.functions.contains(enter) && table.functions.contains(exit)
}

/// Whether a number is that of one of so many drives.
fn numbers_drive(made: usize, number: u64) -> bool
    ensures { result ≡ numbers_a_drive made number }
{
    1 <= number && number <= made as u64
}

/// Whether a drive may have this argument, behind declarations with the names of the table and so many drives.
fn is_drivable(names: &NameSet, made: usize, atom: &DriveAtom) -> bool
    ensures { result ≡ is_drivable_by names.now made atom.now }
{
    match atom {
        DriveAtom::None => true,
        DriveAtom::Bool(_) => true,
        DriveAtom::Int(_) => true,
        DriveAtom::Str(_) => true,
        DriveAtom::Name(name) => names.contains(name) || is_builtin_class(name),
        DriveAtom::Drive(number) => numbers_drive(made, *number),
    }
}

fn are_drivable(names: &NameSet, made: usize, atoms: &[DriveAtom]) -> bool
    ensures { result ≡ list_all (is_drivable_by names.now made) atoms.now }
{
    atoms.iter().all(|atom| is_drivable(names, made, atom))
}

/// Whether a drive may throw this value with a class, where there is one.
fn is_thrown(names: &NameSet, made: usize, value: &Option<DriveAtom>) -> bool
    ensures { result ≡ is_thrown_by names.now made value.now }
{
    match value {
        None => true,
        Some(atom) => is_drivable(names, made, atom),
    }
}

/// Whether a drive may stand behind declarations with the names of the table and so many drives.
fn may_follow(table: &Table, made: usize, drive: &DriveLine) -> bool
    ensures { result ≡ may_drive_by table.now made drive.now }
{
    match drive {
        DriveLine::Call(name, args) => {
            args.len() <= 255
                && table.functions.contains(name)
                && are_drivable(&table.names, made, args.as_slice())
        }
        DriveLine::Next(number) => numbers_drive(made, *number),
        DriveLine::Send(number, atom) => {
            numbers_drive(made, *number) && is_drivable(&table.names, made, atom)
        }
        DriveLine::Throw(number, class, value) => {
            numbers_drive(made, *number)
                && is_base(&table.classes, class)
                && is_thrown(&table.names, made, value)
        }
        DriveLine::Close(number) => numbers_drive(made, *number),
        DriveLine::Report(number) => numbers_drive(made, *number),
    }
}

/// Whether a drive may stand behind a script, of whose declarations the table has the names.
#[tactic(auto, using(crate::proofs::Tables::may_drive_names))]
pub fn may_drive(table: &Table, whole: &Script, drive: &DriveLine) -> bool
    requires { table.now ≡ table_of (decls_of whole.now) None }
    ensures { result ≡ may_be_driven (map declared_as (decls_of whole.now)) (length whole.now.drives) drive.now }
{
    may_follow(table, whole.drives.len(), drive)
}

/// Whether a yield may stand in a body of this kind.
fn may_yield(kind: BodyKind) -> bool
    ensures { result ≡ may_be_yielded_in kind }
{
    match kind {
        BodyKind::Function => false,
        BodyKind::Generator => true,
    }
}

/// Whether an operator may have so many operands in a body of this kind: a call has a callee and at most 255 arguments.
fn may_operate(kind: BodyKind, operator: Operator, operands: usize) -> bool
    ensures { result ≡ may_be_operated kind (way_of operator) operands }
{
    match operator {
        Operator::Add | Operator::Sub | Operator::Lt | Operator::Eq => operands == 2,
        Operator::Send | Operator::Throw => operands == 2,
        Operator::Close => operands == 1,
        Operator::Yield => may_yield(kind) && operands == 1,
        Operator::Call => 1 <= operands && operands <= 256,
    }
}

/// Whether an expression may stand in a body of this kind.
#[cycle(compute)]
fn may_compute(kind: BodyKind, expr: &Expr) -> bool
    ensures { result ≡ may_be_computed kind (expr_of expr.now) }
{
    match expr {
        Expr::Atom(_) => true,
        Expr::Operation(operator, operands) => may_apply(kind, *operator, operands),
    }
}

/// Whether an operator with these operands may.
#[cycle(compute)]
fn may_apply(kind: BodyKind, operator: Operator, operands: &ExprList) -> bool
    ensures { result ≡ may_be_computed kind (Operate operator (exprs_of operands.now)) }
{
    may_operate(kind, operator, operands.as_slice().len()) && may_compute_all(kind, operands)
}

/// Whether each of these expressions may.
#[cycle(compute)]
fn may_compute_all(kind: BodyKind, exprs: &ExprList) -> bool
    ensures { result ≡ all_may_be_computed kind (exprs_of exprs.now) }
{
    for expr in exprs.as_slice() {
        if !may_compute(kind, expr) {
            return false;
        }
    }
    true
}

/// Whether a plain statement may stand there.
pub fn may_hold(inside: Inside, plain: &Plain) -> bool
    ensures { result ≡ may_be_held inside (plain_of plain.now) }
{
    match plain {
        Plain::Assign(_, expr) => may_compute(inside.kind, expr),
        Plain::Do(operator, operands) => may_apply(inside.kind, *operator, operands),
        Plain::Show(expr) => may_compute(inside.kind, expr),
        Plain::Return(expr) => may_compute(inside.kind, expr),
        Plain::Raise(expr) => may_compute(inside.kind, expr),
        Plain::Reraise => true,
        Plain::Break => inside.in_loop,
        Plain::Continue => inside.in_loop,
        Plain::Pass => true,
    }
}

/// Whether what this line computes may stand in a body of this kind.
fn may_begin(kind: BodyKind, head: &Head) -> bool
    ensures { result ≡ may_be_begun kind (head_of head.now) }
{
    match head {
        Head::If(expr) => may_compute(kind, expr),
        Head::While(expr) => may_compute(kind, expr),
        Head::Try => true,
        Head::With(expr, _) => may_compute(kind, expr),
    }
}

/// Whether this line may open a block there.
pub fn may_open(inside: Inside, head: &Head) -> bool
    ensures { result ≡ may_be_opened inside (head_of head.now) }
{
    inside.blocks < MOST_BLOCKS && may_begin(inside.kind, head)
}
