//! Lists of statements and of clauses.

use py_code::{NoMemory, text_of_str};
use py_tree::{Clause, ClauseList, Stmt, StmtForm, StmtList};

#[test]
fn a_statement_is_put_behind_the_others(rt: HostRuntime) -> Result<(), NoMemory> {
    let mut suite = StmtList::new(rt.alloc());
    for line in 1..4 {
        let form = StmtForm::Pass;
        suite.push(Stmt { line, form })?;
    }
    assert_eq!(rt; suite.len(), 3);
    assert_eq!(rt; suite.get(2).map(|stmt| stmt.line), Some(3));
    assert!(rt; suite.get(3).is_none());
    Ok(())
}

#[test]
fn a_clause_is_put_behind_the_others(rt: HostRuntime) -> Result<(), NoMemory> {
    let mut clauses = ClauseList::new(rt.alloc());
    for line in 1..4 {
        let class = text_of_str(rt.alloc(), "ValueError")?;
        let target = None;
        let suite = StmtList::new(rt.alloc());
        clauses.push(Clause {
            line,
            class,
            target,
            suite,
        })?;
    }
    assert_eq!(rt; clauses.len(), 3);
    assert_eq!(rt; clauses.get(0).map(|clause| clause.line), Some(1));
    assert!(rt; clauses.get(3).is_none());
    Ok(())
}
