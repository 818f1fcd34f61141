//! A text that is a script, and one that is none.

ghost use Rattle.std.specs.Prelude.{◌≤◌, length};

use py_code::NoMemory;
use py_grammar::{ParseFault, one_script, parse_script};
use std::alloc::Global;

const SCRIPT: &[u8] = b"# a loop\ndef f a\nwhile a\nshow 'b'\nend\nend\ncall f -1\ncall f $1\n";

/// What a text is, as far as it is looked at here.
#[derive(Clone, Copy, Debug, PartialEq, Eq)]
enum Outline {
    /// A script, with so many names and drives.
    Script { names: usize, drives: usize },
    /// No script, by the line of this number.
    BadLine(u64),
}

fn outline_of(alloc: Global, text: &[u8]) -> Result<Outline, NoMemory>
    requires { length text.now ≤ 1048576 }
{
    one_script(text);
    match parse_script(alloc, text) {
        Ok(script) => {
            let declarations = script.declarations.as_slice().iter();
            let named = declarations.filter(|declared| declared.name().len() > 0);
            Ok(Outline::Script {
                names: named.count(),
                drives: script.drives.len(),
            })
        }
        Err(ParseFault::Malformed(line)) => Ok(Outline::BadLine(line)),
        Err(ParseFault::NoMemory) => Err(NoMemory),
    }
}

#[test]
fn a_text_is_a_script_or_has_a_bad_line(rt: HostRuntime) -> Result<(), NoMemory> {
    let alloc = rt.alloc();
    let script = Outline::Script {
        names: 1,
        drives: 2,
    };
    assert_eq!(rt; outline_of(alloc, SCRIPT)?, script);
    assert_eq!(rt;
        outline_of(alloc, b"def f a\nreturn a\n")?,
        Outline::BadLine(3)
    );
    Ok(())
}

const RAW_SCRIPT: &[u8] = b"def g\nend\ncode f a\nflags gen newlocals\ndepth 1\nconsts None 5 'b'\n\
    counts 0 1 0\nvars x\ncells\nnames n\nu ExtendedArg 1 - -\nu LoadConst 0 - -\nu YieldValue 0 any -\nend\n\
    code h\nconsts 'x'\ndepth 1\nu ReturnConst 0 - -\nend\nmanager m f h\ncall f 1\n";

#[test]
fn raw_codes_are_declarations(rt: HostRuntime) -> Result<(), NoMemory> {
    let alloc = rt.alloc();
    let script = Outline::Script {
        names: 4,
        drives: 1,
    };
    assert_eq!(rt; outline_of(alloc, RAW_SCRIPT)?, script);
    assert_eq!(rt;
        outline_of(alloc, b"code f\ndepth 1\nvars\nvars a\n")?,
        Outline::BadLine(4)
    );
    assert_eq!(rt;
        outline_of(alloc, b"code f\ndepth 1\nu Pop 0 - -\nu Raise 2 - -\n")?,
        Outline::BadLine(4)
    );
    assert_eq!(rt;
        outline_of(alloc, b"code f\ndepth 1\nend\n")?,
        Outline::BadLine(3)
    );
    assert_eq!(rt;
        outline_of(alloc, b"def g\nend\ncode f\nconsts @g (1 'b')\nconsts @f\n")?,
        Outline::BadLine(5)
    );
    assert_eq!(rt;
        outline_of(alloc, b"code f\nconsts @f\n")?,
        Outline::BadLine(2)
    );
    Ok(())
}
