//! Texts with their lexemes: of each a letter for its kind and its bytes, of an inserted `;` a `~`.

/// Separators, and the byte order mark.
pub(super) static SEPARATORS: [(&[u8], &str); 8] = [
    (b"", ""),
    (b" \t\r\n\n", ""),
    (b"package main\n", "k:package w:main ~"),
    (b"func main() {\r\n}\r\n", "k:func w:main o:( o:) o:{ o:} ~"),
    (b"x\r\ny\r\n", "w:x ~ w:y ~"),
    (b"\xEF\xBB\xBF", ""),
    (b"\xEF\xBB\xBFx", "w:x ~"),
    (
        b"\"\xEF\xBB\xBF\x00\" //\xEF\xBB\xBF\x00",
        "t:\"\u{FEFF}\0\" ~",
    ),
];

/// Words, and each keyword, at ends of lines.
pub(super) static WORDS: [(&[u8], &str); 9] = [
    (
        b"break\ncase\nchan\nconst\n",
        "k:break ~ k:case k:chan k:const",
    ),
    (
        b"continue\ndefault\ndefer\nelse\n",
        "k:continue ~ k:default k:defer k:else",
    ),
    (
        b"fallthrough\nfor\nfunc\ngo\n",
        "k:fallthrough ~ k:for k:func k:go",
    ),
    (
        b"goto\nif\nimport\ninterface\n",
        "k:goto k:if k:import k:interface",
    ),
    (
        b"map\npackage\nrange\nreturn\n",
        "k:map k:package k:range k:return ~",
    ),
    (
        b"select\nstruct\nswitch\ntype\nvar\n",
        "k:select k:struct k:switch k:type k:var",
    ),
    (b"funcs Func func_", "w:funcs w:Func w:func_ ~"),
    (b"_ nil true", "w:_ w:nil w:true ~"),
    (b"a1_B2 _9 Zz", "w:a1_B2 w:_9 w:Zz ~"),
];

/// Each operator at the end of a line, and operators that follow one another.
pub(super) static OPERATORS: [(&[u8], &str); 19] = [
    (b"<<=\n>>=\n&^=\n...\n", "o:<<= o:>>= o:&^= o:..."),
    (b"<<\n>>\n&^\n+=\n-=\n*=\n", "o:<< o:>> o:&^ o:+= o:-= o:*="),
    (b"/=\n%=\n&=\n|=\n^=\n", "o:/= o:%= o:&= o:|= o:^="),
    (b"&&\n||\n<-\n", "o:&& o:|| o:<-"),
    (b"++\n--\n)\n]\n}\n", "o:++ ~ o:-- ~ o:) ~ o:] ~ o:} ~"),
    (b"==\n!=\n<=\n>=\n:=\n", "o:== o:!= o:<= o:>= o::="),
    (
        b"+\n-\n*\n/\n%\n&\n|\n^\n",
        "o:+ o:- o:* o:/ o:% o:& o:| o:^",
    ),
    (
        b"<\n>\n=\n!\n~\n(\n[\n{\n",
        "o:< o:> o:= o:! o:~ o:( o:[ o:{",
    ),
    (b",\n;\n.\n:\n", "o:, o:; o:. o::"),
    (b"a<<=b a<<-b", "w:a o:<<= w:b w:a o:<< o:- w:b ~"),
    (b"a+++b---c", "w:a o:++ o:+ w:b o:-- o:- w:c ~"),
    (b"a<-<-b", "w:a o:<- o:<- w:b ~"),
    (b"b>>>=c", "w:b o:>> o:>= w:c ~"),
    (b"a&&&b", "w:a o:&& o:& w:b ~"),
    (b"b&^&^=c", "w:b o:&^ o:&^= w:c ~"),
    (b".. ....", "o:. o:. o:... o:."),
    (b"a:==b<==c", "w:a o::= o:= w:b o:<= o:= w:c ~"),
    (b"!~!=", "o:! o:~ o:!="),
    (
        b"f(x[1:], y...)",
        "w:f o:( w:x o:[ n:1 o:: o:] o:, w:y o:... o:) ~",
    ),
];

/// Where a `;` is inserted.
pub(super) static SEMICOLONS: [(&[u8], &str); 6] = [
    (b"x\ny", "w:x ~ w:y ~"),
    (b"1\n\"\"\n", "n:1 ~ t:\"\" ~"),
    (b"x;\n", "w:x o:;"),
    (b"x \n \n", "w:x ~"),
    (b"\n\nx", "w:x ~"),
    (b"x /* a */ \n y", "w:x ~ w:y ~"),
];

/// Comments to the end of the line, and general ones.
pub(super) static COMMENTS: [(&[u8], &str); 19] = [
    (b"x // y\nz", "w:x ~ w:z ~"),
    (b"x // y", "w:x ~"),
    (b"x//\r\ny", "w:x ~ w:y ~"),
    (b"+ // y\nz", "o:+ w:z ~"),
    (b"return // x\n1", "k:return ~ n:1 ~"),
    (b"x // \" \\q /*\ny", "w:x ~ w:y ~"),
    (b"x /* y */ z", "w:x w:z ~"),
    (b"x /* y */", "w:x ~"),
    (b"x /* \n */ z", "w:x ~ w:z ~"),
    (b"x /* \n\n */", "w:x ~"),
    (b"+ /* \n */ z", "o:+ w:z ~"),
    (b"x /*\r*/ y", "w:x w:y ~"),
    (b"x /**/ + /***/ y", "w:x o:+ w:y ~"),
    (b"x /*/ */ y", "w:x w:y ~"),
    (b"x /* // */ y", "w:x w:y ~"),
    (b"x /* a * / \" */ y", "w:x w:y ~"),
    (b"/* a */ */", "o:* o:/"),
    (b"x / / y / *z", "w:x o:/ o:/ w:y o:/ o:* w:z ~"),
    (b"// \xC3\xA9 # '", ""),
];

/// Integer literals.
pub(super) static NUMBERS: [(&[u8], &str); 9] = [
    (b"0 7 10 900", "n:0 n:7 n:10 n:900 ~"),
    (b"1_0 1_2_3 9_00", "n:1_0 n:1_2_3 n:9_00 ~"),
    (b"0x1F 0XaBc 0x0", "n:0x1F n:0XaBc n:0x0 ~"),
    (b"0x_F 0x1_F", "n:0x_F n:0x1_F ~"),
    (b"9223372036854775807", "n:9223372036854775807 ~"),
    (
        b"9_223_372_036_854_775_807",
        "n:9_223_372_036_854_775_807 ~",
    ),
    (b"0x7FFF_FFFF_FFFF_FFFF", "n:0x7FFF_FFFF_FFFF_FFFF ~"),
    (
        b"0x0000000000000000000000001",
        "n:0x0000000000000000000000001 ~",
    ),
    (b"1.5 -1 _1", "n:1 o:. n:5 o:- n:1 w:_1 ~"),
];

/// String literals.
pub(super) static STRINGS: [(&[u8], &str); 7] = [
    (b"\"\"", "t:\"\" ~"),
    (b"\"a b\" \"c\"d", "t:\"a b\" t:\"c\" w:d ~"),
    (b"\"//\" \"/*\" x", "t:\"//\" t:\"/*\" w:x ~"),
    (
        b"\"\\a\\b\\f\\n\\r\\t\\v\"",
        "t:\"\\a\\b\\f\\n\\r\\t\\v\" ~",
    ),
    (b"\"\\\\\\\"\"", "t:\"\\\\\\\"\" ~"),
    (b"\"\\\\\" x", "t:\"\\\\\" w:x ~"),
    (b"\"\xC3\xA9\t\r'\"", "t:\"\u{E9}\t\r'\" ~"),
];
