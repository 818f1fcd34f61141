//! The host's lines, and plug-ins as they might come from elsewhere.

/// What the host asks of each plug-in: the text that it registers under, a generator of its work, and that this begins, takes two numbers, and is
/// closed.
pub(crate) const LINES: &str = "call register
call work 3
next 2
send 2 5
send 2 7
close 2
";

/// A plug-in: what the host calls it, and its text.
pub(crate) struct Plugin {
    pub name: &'static str,
    pub text: &'static str,
}

/// The plug-ins, in the order in which they are driven.
pub(crate) const PLUGINS: [Plugin; 6] = [
    Plugin {
        name: "sums",
        text: SUMS,
    },
    Plugin {
        name: "texts",
        text: TEXTS,
    },
    Plugin {
        name: "rounds",
        text: ROUNDS,
    },
    Plugin {
        name: "idle",
        text: IDLE,
    },
    Plugin {
        name: "eager",
        text: EAGER,
    },
    Plugin {
        name: "torn",
        text: TORN,
    },
];

/// Sums what it is sent, in a box that is shut and with lines that run behind it, however it is left.
const SUMS: &str = "def open
show 'open'
end
def shut t v b
show 'shut'
end
manager box open shut
def register
return 'sums'
end
gen work n
try
with box
while True
more = (yield n)
n = (add n more)
end
end
finally
show n
end
end
";

/// Adds a text to a number, which raises; its box is shut all the same.
const TEXTS: &str = "def open
end
def shut t v b
show t
end
manager box open shut
def register
return 'texts'
end
gen work n
with box
more = (yield n)
do (add more 'two')
end
end
";

/// Goes round for ever with the first number that it is sent. Its last line has no end.
const ROUNDS: &str = "def register
return 'rounds'
end
gen work n
more = (yield n)
while more
pass
end
end";

/// Has no work.
const IDLE: &str = "def register
return 'idle'
end
";

/// Makes a drive of its own.
const EAGER: &str = "def register
return 'eager'
end
call register
";

/// Has a line that is none.
const TORN: &str = "def register
returns 'torn'
end
";
