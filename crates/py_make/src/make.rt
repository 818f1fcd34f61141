//! The text of a script from a seed: declarations, and groups of drives by numbers that are drawn.

ghost use Rattle.std.specs.Prelude.{◌≡◌, ◌++◌, ◌<◌, ◌≤◌, ◌+◌, ◌*◌, ◌^◌, IfOk, OnOk, string_bytes};
ghost use Rattle.py_make.specs.Made.{drawn, drives_of, group, made_text, next_state};

use py_code::NoMemory;
use std::alloc::Global;

/// A script has at most so many groups.
pub const MOST_GROUPS: u64 = 10_000;

/// What each script declares.
const DECLARATIONS: &str = "class Fault Exception
def enter
show 'open'
end
def exit t v b
show 'close'
end
manager scope enter exit
def work a
c = (lt a 500)
try
with scope
if c
raise Fault
end
return a
end
except Fault as e
return e
end
end
gen count n
i = 0
while True
try
do (yield i)
finally
i = (add i 1)
end
c = (lt i n)
if c
else
break
end
end
end
";

/// The state of the generator of numbers after one step.
fn next_state(state: u64) -> u64
    requires { state < 2 ^ 32 }
    ensures next { result ≡ next_state state }
    ensures below { result < 2 ^ 32 }
{
    (state * 1664525 + 1013904223) % (1 << 32)
}

/// The number that is drawn from a state: its high 16 bits, since the low ones soon repeat.
fn drawn(state: u64) -> u64
    ensures { result ≡ drawn state }
{
    state / 65536
}

/// How many drives the group of a number has. In 128 bits, since a text may have 2^64 groups.
fn drives_of(number: u64) -> u128
    ensures { result ≡ drives_of number }
{
    if number % 2 == 0 { 1 } else { 3 }
}

/// Appends the group of a number; its first drive is the one with the number `drive`.
fn push_group(text: &mut String, number: u64, drive: u128) -> Result<(), NoMemory>
    ensures { OnOk result (string_bytes text.new ≡ string_bytes text.old ++ group number drive) }
{
    let value = number % 1000;
    if number % 2 == 0 {
        write!(text, "call work {value}\n")?;
    } else {
        write!(text, "call count {value}\nnext {drive}\nclose {drive}\n")?;
    }
    Ok(())
}

/// The text of the script that is made from a seed, with so many groups of drives. `parse_script` takes it where these
/// are at most `MOST_GROUPS`.
pub fn make_script(alloc: Global, seed: u64, count: u64) -> Result<Vec<u8>, NoMemory>
    ensures { IfOk result (λ bytes. bytes.items ≡ made_text seed count) }
{
    let mut text = String::new(alloc);
    text.push_str(DECLARATIONS)?;
    let mut state = seed % (1 << 32);
    let mut drive = 1;
    for _group in 0..count {
        state = next_state(state);
        let number = drawn(state);
        push_group(&mut text, number, drive)?;
        drive += drives_of(number);
    }
    Ok(text.into_bytes())
}
