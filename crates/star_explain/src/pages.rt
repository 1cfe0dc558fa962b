//! The pages of the codes of faults: their meaning, as `--explain-code` prints it and `docs/EXPLAIN.md` has it.

/// A code of a fault.
#[derive(Clone, Copy)]
pub struct Page {
    /// Its word in the report.
    pub code: &'static str,
    /// Its name, in a few words.
    pub short: &'static str,
    /// Its meaning, in a line.
    pub means: &'static str,
    /// A program that has the fault, in its last file, each line after four blanks.
    pub program: &'static str,
    /// The cure.
    pub cure: &'static str,
}

/// The page of each code, in the byte order of the codes.
pub const PAGES: [Page; 26] = [
    Page {
        code: "args",
        short: "the arguments do not fit",
        means: "A call has an argument too many or too few, one that the function does not know, or one twice.",
        program: "    def area(width, height):\n        return width * height\n    x = area(3)",
        cure: "Compare the call with the parameters of the function. The line is that of the call in the file of the report; if it calls a helper, the wrong call may be within the helper.",
    },
    Page {
        code: "bad_indent",
        short: "wrong indentation",
        means: "A line is indented by a tab, or it ends a block and is indented like none of the blocks around it.",
        program: "    if True:\n        x = 1\n      y = 2",
        cure: "Indent the lines of a block by the same number of spaces. Tabs are not allowed.",
    },
    Page {
        code: "bad_label",
        short: "no label",
        means: "The module of a load statement is not a label.",
        program: "    load(\"lib/money.star\", \"total\")",
        cure: "Write `//lib:money.star` for the file money.star in the folder lib, or `:money.star` for a file beside this one.",
    },
    Page {
        code: "bad_place",
        short: "a statement that may not stand here",
        means: "A statement is where it may not be: `return` outside of a function, `break` or `continue` outside of a loop, or `load` within a block or in the prelude.",
        program: "    if True:\n        load(\":a.star\", \"x\")",
        cure: "Move the statement. Load statements are at the top level, not indented.",
    },
    Page {
        code: "bad_token",
        short: "a text that is no token",
        means: "The text has a character that no token begins with, or a string or number that does not end as it should.",
        program: "    x = \"open",
        cure: "Look for an open quote, a character such as `$` or a no-break space, or a number like `08` or `12ab`.",
    },
    Page {
        code: "conflict",
        short: "a name that is bound twice",
        means: "A loaded name is loaded twice or assigned as well, or a parameter is named twice.",
        program: "    # //:b.star\n    port = 80\n\n    # //:a.star\n    load(\":b.star\", \"port\")\n    port = 8080",
        cure: "Load it under another name: `load(\":b.star\", http = \"port\")`.",
    },
    Page {
        code: "cut",
        short: "an index that cuts a character of a string",
        means: "An index or a slice of a string would cut a character in two: strings are indexed by bytes of UTF-8.",
        program: "    s = \"größe\"\n    x = s[3]",
        cure: "Find the place by `find` or `split`, or use ASCII where you index.",
    },
    Page {
        code: "deep",
        short: "more than 400 levels are open",
        means: "More than 400 levels of expressions, statements, calls and values are open at once.",
        program: "    x = []\n    for i in range(500):\n        x = [x]",
        cure: "Nest less deep: keep rows in place of values within values, and split long chains of calls.",
    },
    Page {
        code: "fail",
        short: "the program called `fail`",
        means: "The program called `fail`. Its text is the last of the lines.",
        program: "    def check(n):\n        if n < 1:\n            fail(\"n must be positive, not\", n)\n    check(0)",
        cure: "Read the last line of the module, and mend what it asks for.",
    },
    Page {
        code: "frozen",
        short: "a value of another file is frozen",
        means: "A list or dictionary of another file is changed. What a file has made is frozen once the file has ended.",
        program: "    # //:b.star\n    ports = [80]\n\n    # //:a.star\n    load(\":b.star\", \"ports\")\n    ports.append(443)",
        cure: "Make a list of your own: `mine = ports + [443]`, `list(ports)`, `dict(table)`.",
    },
    Page {
        code: "index",
        short: "an index outside of the value",
        means: "An index is outside of the list, tuple, string or range.",
        program: "    x = [1, 2, 3][3]",
        cure: "Indexes go from 0 to the length less 1, or from -1 down to minus the length.",
    },
    Page {
        code: "iterating",
        short: "a change of a value while a loop goes over it",
        means: "A list or dictionary is changed while a loop goes over it.",
        program: "    xs = [1, 2]\n    for x in xs:\n        xs.append(x)",
        cure: "Loop over a copy: `for x in list(xs)`. Or collect the changes, and make them after the loop.",
    },
    Page {
        code: "key",
        short: "a key that is not there, or twice in a display",
        means: "A dictionary does not have the key; or a display of a dictionary has a key twice.",
        program: "    ports = {\"http\": 80}\n    x = ports[\"https\"]",
        cure: "Ask by `get(key, default)` or `key in d`. In a display, take one of the two entries out.",
    },
    Page {
        code: "nested",
        short: "nested too deeply",
        means: "Brackets, blocks and operators are within one another more than 100 times.",
        program: "    x = ((((((((((((((((((((((((((((((((((((((((((((((((((((((((((((((((((((((((((((((((((((((((((((((((((((((((1))))))))))))))))))))))))))))))))))))))))))))))))))))))))))))))))))))))))))))))))))))))))))))))))))))))))",
        cure: "Give the inner parts names of their own.",
    },
    Page {
        code: "no_file",
        short: "no such file",
        means: "A load statement names a file that is not there.",
        program: "    load(\":mony.star\", \"total\")",
        cure: "Compare the label with the files. With `--dir` only files whose names end in `.star` are there, and no links.",
    },
    Page {
        code: "no_name",
        short: "the loaded file has no such global",
        means: "A load statement names a global that the loaded file does not have.",
        program: "    # //:b.star\n    total = 3\n\n    # //:a.star\n    load(\":b.star\", \"totel\")",
        cure: "Compare the name with the globals of that file in the report. Names that a file itself loads are not its globals.",
    },
    Page {
        code: "overflow",
        short: "an int outside of 64 bits",
        means: "An int is outside of 64 bits, or a text would be too long to count.",
        program: "    x = 9223372036854775807 + 1",
        cure: "Use smaller units, or keep such a number as a string.",
    },
    Page {
        code: "private",
        short: "a private name",
        means: "A load statement names a global that begins with `_`: such names stay within their file.",
        program: "    # //:b.star\n    _secret = 1\n\n    # //:a.star\n    load(\":b.star\", \"_secret\")",
        cure: "Rename it in its file, or give it a public name there.",
    },
    Page {
        code: "recursion",
        short: "a function that is called while it runs",
        means: "A function is called while it runs, by itself or by way of others.",
        program: "    def count(n):\n        return 0 if n == 0 else 1 + count(n - 1)\n    x = count(3)",
        cure: "Use a `for` loop, with a list as the stack if you need one.",
    },
    Page {
        code: "steps",
        short: "the steps of this file are used up",
        means: "The file has used up its steps, 1,000,000 unless `--steps` says another number.",
        program: "    xs = [x for x in range(10000000)]",
        cure: "Look for a loop that is too long. If the work is right, give more by `--steps`, up to 100,000,000.",
    },
    Page {
        code: "syntax",
        short: "bad syntax",
        means: "The text does not read as a file of the language. The line in the report is 0.",
        program: "    x = (1,",
        cure: "Look for a missing bracket, colon or comma, and for what is not in this language: `while`, `/` and floats, `is`, f-strings, two strings side by side, `class`, `import`, `try`. Cut the file in halves to find the place.",
    },
    Page {
        code: "type",
        short: "a value of a wrong type, or without this method",
        means: "An operation has a value of a type that it does not take, or a value has no such method.",
        program: "    x = [1, 2].apend(3)",
        cure: "Print `type(x)` of the values in that line. The line is of the file in the report; if it calls a helper, the wrong value may be used within the helper.",
    },
    Page {
        code: "unbound",
        short: "a variable that has no value yet",
        means: "A variable is read before it has a value.",
        program: "    def f():\n        y = x\n        x = 1\n    x = 5\n    f()",
        cure: "A name that a function assigns anywhere is the function's own from its beginning. Give one of the two another name, or hand the value in.",
    },
    Page {
        code: "undefined",
        short: "a name that is not defined",
        means: "A name is bound nowhere: not in the function, the file, the prelude or the language.",
        program: "    x = lenght([1])",
        cure: "Compare its spelling with where it is defined, or load it from its file.",
    },
    Page {
        code: "value",
        short: "a value that does not suit",
        means: "A value has the right type and does not suit: a string that is no number, a wrong number of values to unpack, an item that is not there, a format that does not fit.",
        program: "    a, b = [1, 2, 3]",
        cure: "Print the value in that line and compare it with what the operation takes (docs/LANGUAGE.md).",
    },
    Page {
        code: "zero",
        short: "a division by zero",
        means: "A division by zero.",
        program: "    x = 1 // 0",
        cure: "Test the divisor before.",
    },
];

/// The page of a code.
pub fn page_of(code: &str) -> Option<Page> {
    for page in &PAGES {
        if page.code == code {
            return Some(*page);
        }
    }
    None
}
