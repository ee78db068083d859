//! Whole builds with their reports, worked out by hand.
use crate::tests::answer;
use mk_base::list::List;
use mk_base::memory::NoMemory;
use mk_base::status::Status;
use std::alloc::Global;
use std::test::Fail;
use std::thread::Threads;

// A line is a tree and the report of its build, with a bar between. The files of a tree stand with a semicolon between
// them, each as its path, a colon and its text. A tilde ends a line of a text or a report; the last one of a text is
// left out. A caret is a semicolon of a text. E00 comes at the first part of a source that isn't of the form, E10 at an
// import that isn't there.
const FORMS_AND_IMPORTS: &str = "
A.hs:module A where|A: checked: no interface~build: 1 ok, 1 checked, 0 failed, 0 blocked~
B.hs:module B where~import A~data U = D T|B: failed~B.hs:2:8: error E10: module A not found~build: 0 ok, 0 checked, 1 failed, 0 blocked~
A.hs:module A where~x = 1|A: checked: no interface~A.hs:2:1: error E00: this form is not built yet~build: 0 ok, 1 checked, 1 failed, 0 blocked~
C.hs:module C where~import A~import B|C: failed~C.hs:2:8: error E10: module A not found~C.hs:3:8: error E10: module B not found~build: 0 ok, 0 checked, 1 failed, 0 blocked~
C.hs:module C where~import B~import A~import B~data T = D X|C: failed~C.hs:2:8: error E10: module B not found~C.hs:3:8: error E10: module A not found~C.hs:4:8: error E10: module B not found~build: 0 ok, 0 checked, 1 failed, 0 blocked~
A.hs:module A where~import A|A: failed~A.hs:2:8: error E11: import cycle through A~build: 0 ok, 0 checked, 1 failed, 0 blocked~
A.hs:module A where~import B;B.hs:module B where|B: checked: no interface~A: checked: no interface~build: 2 ok, 2 checked, 0 failed, 0 blocked~
Q.hs:module Q where~import Prim|Q: checked: no interface~Q.hs:2:1: error E00: this form is not built yet~build: 0 ok, 1 checked, 1 failed, 0 blocked~
A.hs:module B where~import C|A: failed~A.hs:1:8: error E13: header names B~A.hs:2:8: error E10: module C not found~build: 0 ok, 0 checked, 1 failed, 0 blocked~
A.hs:|A: failed~A.hs:1:1: error E13: header names Main~build: 0 ok, 0 checked, 1 failed, 0 blocked~
A/B.hs:module A.B where|A.B: checked: no interface~build: 1 ok, 1 checked, 0 failed, 0 blocked~
M.hs-boot:module M where;N.hs:module N where~import M|M[boot]: checked: no interface~M.hs-boot:1:1: error E00: this form is not built yet~N: failed~N.hs:2:8: error E10: module M not found~build: 0 ok, 1 checked, 2 failed, 0 blocked~
M.hs:module M where;M.hs-boot:module M where;N.hs:module N where~import M|M[boot]: checked: no interface~M.hs-boot:1:1: error E00: this form is not built yet~M: blocked by M[boot]~N: blocked by M[boot]~build: 0 ok, 1 checked, 1 failed, 2 blocked~
a.hs:module a where;A.hsi:x;Prim.hs:module Prim where;A-B.hs:y|build: 0 ok, 0 checked, 0 failed, 0 blocked~
Z.hs:module Z where;B.hs:module B where;A1.hs:module A1 where;A.hs:module A where|A: checked: no interface~A1: checked: no interface~B: checked: no interface~Z: checked: no interface~build: 4 ok, 4 checked, 0 failed, 0 blocked~
A.hs:module A where~data T =  C|A: checked: no interface~build: 1 ok, 1 checked, 0 failed, 0 blocked~
B.hs:module B where~data T = C~import A|B: checked: no interface~B.hs:3:1: error E00: this form is not built yet~build: 0 ok, 1 checked, 1 failed, 0 blocked~
A.hs:module A where~data T = C~data U|A: checked: no interface~A.hs:3:6: error E00: this form is not built yet~build: 0 ok, 1 checked, 1 failed, 0 blocked~
A.hs:module A where~data T = C a|A: checked: no interface~A.hs:2:12: error E00: this form is not built yet~build: 0 ok, 1 checked, 1 failed, 0 blocked~
A.hs:module A where;B.hs:module B where~import A~oh no;C.hs:module C where~import B|A: checked: no interface~B: checked: no interface~B.hs:3:1: error E00: this form is not built yet~C: blocked by B~build: 1 ok, 2 checked, 1 failed, 1 blocked~
B.hs:module B where~import A~oh no;C.hs:module C where~import B|B: failed~B.hs:2:8: error E10: module A not found~C: blocked by B~build: 0 ok, 0 checked, 1 failed, 1 blocked~
";

// The same with E21 for what isn't in scope, E22 for what is ambiguous and E23 for what is defined twice.
const SCOPES: &str = "
A.hs:module A where~data T = C X|A: checked: no interface~A.hs:2:12: error E21: X is not in scope~build: 0 ok, 1 checked, 1 failed, 0 blocked~
A.hs:module A where~data T = C X Y T X|A: checked: no interface~A.hs:2:12: error E21: X is not in scope~A.hs:2:14: error E21: Y is not in scope~A.hs:2:18: error E21: X is not in scope~build: 0 ok, 1 checked, 1 failed, 0 blocked~
A.hs:module A where~data S = K~data T = M;B.hs:module B where~data T = C;C.hs:module C where~import A~import B~data U = D T|A: checked: no interface~B: checked: no interface~C: checked: no interface~C.hs:4:12: error E22: T is ambiguous~build: 2 ok, 3 checked, 1 failed, 0 blocked~
A.hs:module A where~data T = M;B.hs:module B where~data T = C;C.hs:module C where~import A~import B~data U = D|A: checked: no interface~B: checked: no interface~C: checked: no interface~build: 3 ok, 3 checked, 0 failed, 0 blocked~
A.hs:module A where~data T = M;C.hs:module C where~import A~import A~data U = D T|A: checked: no interface~C: checked: no interface~build: 2 ok, 2 checked, 0 failed, 0 blocked~
A.hs:module A where~data T = M;B.hs:module B where~import A~data T = C~data U = D T|A: checked: no interface~B: checked: no interface~B.hs:4:12: error E22: T is ambiguous~build: 1 ok, 2 checked, 1 failed, 0 blocked~
A.hs:module A where~data T = M;B.hs:module B where~import A~data T = M|A: checked: no interface~B: checked: no interface~build: 2 ok, 2 checked, 0 failed, 0 blocked~
A.hs:module A where~data T = C~data T = D~data T = E|A: checked: no interface~A.hs:3:6: error E23: T is defined twice~A.hs:4:6: error E23: T is defined twice~build: 0 ok, 1 checked, 1 failed, 0 blocked~
A.hs:module A where~data Long = C~data U = C|A: checked: no interface~A.hs:3:10: error E23: C is defined twice~build: 0 ok, 1 checked, 1 failed, 0 blocked~
A.hs:module A where~data T = U T U~data U = T|A: checked: no interface~build: 1 ok, 1 checked, 0 failed, 0 blocked~
";

// The same over several modules, beside what fails or isn't there.
const SCOPES_BEHIND_FAULTS: &str = "
A.hs:module A where~data T = C;B.hs:module B where~import A;C.hs:module C where~import B~data U = D T|A: checked: no interface~B: checked: no interface~C: checked: no interface~C.hs:3:12: error E21: T is not in scope~build: 2 ok, 3 checked, 1 failed, 0 blocked~
A.hs:module A where~data T = C;B.hs:module B where~import A~data U = D C|A: checked: no interface~B: checked: no interface~B.hs:3:12: error E21: C is not in scope~build: 1 ok, 2 checked, 1 failed, 0 blocked~
A.hs:module A where~data T = C;B.hs:module B where~import A~data T = D T~data T = D X|A: checked: no interface~B: checked: no interface~B.hs:3:12: error E22: T is ambiguous~B.hs:4:6: error E23: T is defined twice~B.hs:4:10: error E23: D is defined twice~B.hs:4:12: error E21: X is not in scope~build: 1 ok, 2 checked, 1 failed, 0 blocked~
B.hs:module B where~import A~data T = D T~data T = D X|B: failed~B.hs:2:8: error E10: module A not found~build: 0 ok, 0 checked, 1 failed, 0 blocked~
A.hs:module A where~data T = C X;B.hs:module B where~import A;C.hs:module C where~import B;D.hs:module D where~import C|A: checked: no interface~A.hs:2:12: error E21: X is not in scope~B: blocked by A~C: blocked by A~D: blocked by A~build: 0 ok, 1 checked, 1 failed, 3 blocked~
B.hs:module B where~data T = C X;A.hs:module A where~data T = C X;C.hs:module C where~import B~import A|A: checked: no interface~A.hs:2:12: error E21: X is not in scope~B: checked: no interface~B.hs:2:12: error E21: X is not in scope~C: blocked by A~build: 0 ok, 2 checked, 2 failed, 1 blocked~
A.hs:module A where;B.hs:module B where~data T = C X;C.hs:module C where~import A~import B|A: checked: no interface~B: checked: no interface~B.hs:2:12: error E21: X is not in scope~C: blocked by B~build: 1 ok, 2 checked, 1 failed, 1 blocked~
B.hs:module B where~import A;C.hs:module C where~import B|B: failed~B.hs:2:8: error E10: module A not found~C: blocked by B~build: 0 ok, 0 checked, 1 failed, 1 blocked~
A.hs:module A where~data T = C;B.hs:module B where~import A~data U = D T;C.hs:module C where~import A~data V = E T;D.hs:module D where~import B~import C~data W = F U V|A: checked: no interface~B: checked: no interface~C: checked: no interface~D: checked: no interface~build: 4 ok, 4 checked, 0 failed, 0 blocked~
A.hs:module A where~data T = C;A.hs:module A where~data T = C X|A: checked: no interface~A.hs:2:12: error E21: X is not in scope~build: 0 ok, 1 checked, 1 failed, 0 blocked~
";

// Sources with comments, blanks and braces, and items over several lines or several on one: E00 comes at the first
// lexeme that leaves the form, where a sign that is put stands at the next lexeme, and at the end at the last one.
const LAID_OUT: &str = "
A.hs:-- first~module A where -- behind~data T = C -- here|A: checked: no interface~build: 1 ok, 1 checked, 0 failed, 0 blocked~
A.hs:{- a~{- b -} ~-} module A where {- c -}~  data T = {- d -} C T|A: checked: no interface~build: 1 ok, 1 checked, 0 failed, 0 blocked~
A.hs:module A where~data T = C~  T~    X|A: checked: no interface~A.hs:4:5: error E21: X is not in scope~build: 0 ok, 1 checked, 1 failed, 0 blocked~
A.hs:module A where {};B.hs:module B where { import A^data T = C }|A: checked: no interface~B: checked: no interface~build: 2 ok, 2 checked, 0 failed, 0 blocked~
A.hs:module A where~data T = C^data U = D X|A: checked: no interface~A.hs:2:23: error E21: X is not in scope~build: 0 ok, 1 checked, 1 failed, 0 blocked~
A.hs:module A where~\tdata T = C~\tdata U = D X|A: checked: no interface~A.hs:3:20: error E21: X is not in scope~build: 0 ok, 1 checked, 1 failed, 0 blocked~
A.hs:module A where\r~data T = C\r~data U = D X\r|A: checked: no interface~A.hs:3:12: error E21: X is not in scope~build: 0 ok, 1 checked, 1 failed, 0 blocked~
A.hs:module A where~~data T =  C~~|A: checked: no interface~build: 1 ok, 1 checked, 0 failed, 0 blocked~
A.hs:module~  A~ where~   data~     T = C|A: checked: no interface~build: 1 ok, 1 checked, 0 failed, 0 blocked~
A.hs:module A where~  data T = C~ data U = D|A: checked: no interface~A.hs:3:2: error E00: this form is not built yet~build: 0 ok, 1 checked, 1 failed, 0 blocked~
A.hs:module A where { data T = C^ }|A: checked: no interface~build: 1 ok, 1 checked, 0 failed, 0 blocked~
A.hs:module A where~data T = C^|A: checked: no interface~build: 1 ok, 1 checked, 0 failed, 0 blocked~
A.hs:module A where {|A: checked: no interface~A.hs:1:16: error E00: this form is not built yet~build: 0 ok, 1 checked, 1 failed, 0 blocked~
B.hs:module B where~  import~    A~  import {- a -} A|B: failed~B.hs:3:5: error E10: module A not found~B.hs:4:18: error E10: module A not found~build: 0 ok, 0 checked, 1 failed, 0 blocked~
A.hs:module A where { data T = C^data T = C }|A: checked: no interface~A.hs:1:34: error E23: T is defined twice~A.hs:1:38: error E23: C is defined twice~build: 0 ok, 1 checked, 1 failed, 0 blocked~
A.hs:module A where;B.hs:module B where~import qualified A|A: checked: no interface~B: checked: no interface~B.hs:2:1: error E00: this form is not built yet~build: 1 ok, 2 checked, 1 failed, 0 blocked~
A.hs:module A (T) where~data T = C|A: checked: no interface~A.hs:1:10: error E00: this form is not built yet~build: 0 ok, 1 checked, 1 failed, 0 blocked~
A.hs:-- nothing~{- at all -}|A: failed~A.hs:1:1: error E13: header names Main~build: 0 ok, 0 checked, 1 failed, 0 blocked~
A.hs:  {-# LANGUAGE X #-}~module A where|A: failed~A.hs:1:16: error E05: unknown extension X~build: 0 ok, 0 checked, 1 failed, 0 blocked~
B.hs:module B where~data T = C^import A|B: checked: no interface~B.hs:2:12: error E00: this form is not built yet~build: 0 ok, 1 checked, 1 failed, 0 blocked~
";

// Graphs: cycles, loops through boot files, and a Prelude of the tree.
const GRAPHS: &str = "
A.hs:module A where~import B;B.hs:module B where~import A;C.hs:module C where~import A|A: failed~A.hs:2:8: error E11: import cycle through B~B: failed~B.hs:2:8: error E11: import cycle through A~C: blocked by A~build: 0 ok, 0 checked, 2 failed, 1 blocked~
A.hs:module A where~import B~import C;B.hs:module B where;C.hs:module C where~import A|B: checked: no interface~A: failed~A.hs:3:8: error E11: import cycle through C~C: failed~C.hs:2:8: error E11: import cycle through A~build: 1 ok, 1 checked, 2 failed, 0 blocked~
B.hs:module B where~import C;C.hs:module C where~data T = K;A.hs:module A where~import B~import C~data U = D T|C: checked: no interface~B: checked: no interface~A: checked: no interface~build: 3 ok, 3 checked, 0 failed, 0 blocked~
Z.hs:module Z where~data T = C;A/B.hs:module A.B where~import Z~data U = D T;A.hs:module A where~import A.B~data V = E U|Z: checked: no interface~A.B: checked: no interface~A: checked: no interface~build: 3 ok, 3 checked, 0 failed, 0 blocked~
A.hs:module A where~import {-# SOURCE #-} B;B.hs:module B where|A: failed~A.hs:2:23: error E12: module B has no boot file~B: checked: no interface~build: 1 ok, 1 checked, 1 failed, 0 blocked~
M.hs:module M where~import N;M.hs-boot:module M where;N.hs:module N where~import {-# SOURCE #-} M|M[boot]: checked: no interface~M.hs-boot:1:1: error E00: this form is not built yet~N: blocked by M[boot]~M: blocked by M[boot]~build: 0 ok, 1 checked, 1 failed, 2 blocked~
M.hs:module M where~import {-# SOURCE #-} M;M.hs-boot:x|M[boot]: checked: no interface~M.hs-boot:1:1: error E00: this form is not built yet~M: failed~M.hs:2:23: error E11: import cycle through M~build: 0 ok, 1 checked, 2 failed, 0 blocked~
A.hs:module A where~import {-# SOURCE #-} Prim|A: failed~A.hs:2:23: error E12: module Prim has no boot file~build: 0 ok, 0 checked, 1 failed, 0 blocked~
A.hs:{-# LANGUAGE ImplicitPrelude #-}~module A where|A: failed~A.hs:1:1: error E10: module Prelude not found~build: 0 ok, 0 checked, 1 failed, 0 blocked~
Prelude.hs:module Prelude where~data T = C;A.hs:{-# LANGUAGE ImplicitPrelude #-}~module A where~data U = D T|Prelude: checked: no interface~A: checked: no interface~build: 2 ok, 2 checked, 0 failed, 0 blocked~
Prelude.hs:{-# LANGUAGE ImplicitPrelude #-} module Prelude where|Prelude: failed~Prelude.hs:1:1: error E11: import cycle through Prelude~build: 0 ok, 0 checked, 1 failed, 0 blocked~
Prelude.hs:module Prelude where~data T = C;A.hs:{-# LANGUAGE ImplicitPrelude #-}~module A where~import Prelude ()~data U = D T|Prelude: checked: no interface~A: checked: no interface~A.hs:3:1: error E00: this form is not built yet~build: 1 ok, 2 checked, 1 failed, 0 blocked~
";

// Pragmas, names of headers, headers that are cut short, and what has E00 in a header.
const HEADERS: &str = "
A.hs:{-# LANGUAGE Haskell2010, NoMonomorphismRestriction #-}~module A where~data T = C|A: checked: no interface~build: 1 ok, 1 checked, 0 failed, 0 blocked~
A.hs:{-# LANGUAGE GADTs #-}~module A where~import B|A: failed~A.hs:1:14: error E05: unknown extension GADTs~build: 0 ok, 0 checked, 1 failed, 0 blocked~
A.hs:module A wher|A: failed~A.hs:1:10: error E03: this is no module header~build: 0 ok, 0 checked, 1 failed, 0 blocked~
A.hs:module A where~import B C|A: failed~A.hs:2:10: error E03: this is no module header~build: 0 ok, 0 checked, 1 failed, 0 blocked~
A.hs:module|A: failed~A.hs:1:1: error E03: this is no module header~build: 0 ok, 0 checked, 1 failed, 0 blocked~
A.hs:module A where;B.hs:module B where~import A as C|A: checked: no interface~B: checked: no interface~B.hs:2:1: error E00: this form is not built yet~build: 1 ok, 2 checked, 1 failed, 0 blocked~
A.hs:module A where;B.hs:module B where~import A hiding (x)|A: checked: no interface~B: checked: no interface~B.hs:2:1: error E00: this form is not built yet~build: 1 ok, 2 checked, 1 failed, 0 blocked~
A.hs:module A where;B.hs:module B where~import A~import A ()|A: checked: no interface~B: checked: no interface~B.hs:3:1: error E00: this form is not built yet~build: 1 ok, 2 checked, 1 failed, 0 blocked~
Main.hs:x = 1|Main: checked: no interface~Main.hs:1:1: error E00: this form is not built yet~build: 0 ok, 1 checked, 1 failed, 0 blocked~
Main.hs:import A|Main: failed~Main.hs:1:8: error E10: module A not found~build: 0 ok, 0 checked, 1 failed, 0 blocked~
Main.hs:|Main: checked: no interface~Main.hs:1:1: error E00: this form is not built yet~build: 0 ok, 1 checked, 1 failed, 0 blocked~
A.hs:module A where~^^import B^^;B.hs:module B where {^}|B: checked: no interface~A: checked: no interface~build: 2 ok, 2 checked, 0 failed, 0 blocked~
A.hs:module C where~import B;B.hs:module B where~import A|A: failed~A.hs:1:8: error E13: header names C~A.hs:2:8: error E11: import cycle through B~B: failed~B.hs:2:8: error E11: import cycle through A~build: 0 ok, 0 checked, 2 failed, 0 blocked~
";

// E01 comes at the first place at which no lexeme begins, alone, also beside what would leave the form or isn't there.
const BAD_LEXEMES: &str = "
A.hs:module A where~data T = C \x00|A: checked: no interface~A.hs:2:12: error E01: no lexeme begins here~build: 0 ok, 1 checked, 1 failed, 0 blocked~
A.hs:module A where~  {- x|A: failed~A.hs:2:3: error E01: no lexeme begins here~build: 0 ok, 0 checked, 1 failed, 0 blocked~
A.hs:{- {- -} x|A: failed~A.hs:1:1: error E01: no lexeme begins here~build: 0 ok, 0 checked, 1 failed, 0 blocked~
A.hs:module A where~x = \"b|A: checked: no interface~A.hs:2:5: error E01: no lexeme begins here~build: 0 ok, 1 checked, 1 failed, 0 blocked~
A.hs:\x00 \"|A: failed~A.hs:1:1: error E01: no lexeme begins here~build: 0 ok, 0 checked, 1 failed, 0 blocked~
A.hs:module A where~data T = C X -- \x00|A: checked: no interface~A.hs:2:14: error E01: no lexeme begins here~build: 0 ok, 1 checked, 1 failed, 0 blocked~
B.hs:module B where~import A~\x00|B: failed~B.hs:3:1: error E01: no lexeme begins here~build: 0 ok, 0 checked, 1 failed, 0 blocked~
A/B.hs:\x00|A.B: failed~A/B.hs:1:1: error E01: no lexeme begins here~build: 0 ok, 0 checked, 1 failed, 0 blocked~
M.hs-boot:module M where~\x00|M[boot]: checked: no interface~M.hs-boot:2:1: error E01: no lexeme begins here~build: 0 ok, 1 checked, 1 failed, 0 blocked~
M.hs:module M where;M.hs-boot:'x|M[boot]: checked: no interface~M.hs-boot:1:1: error E01: no lexeme begins here~M: blocked by M[boot]~build: 0 ok, 1 checked, 1 failed, 1 blocked~
A.hs:'x;B.hs:module B where~import A|A: failed~A.hs:1:1: error E01: no lexeme begins here~B: blocked by A~build: 0 ok, 0 checked, 1 failed, 1 blocked~
A.hs:module A where;B.hs:module B where~import A~data T = \"|A: checked: no interface~B: checked: no interface~B.hs:3:10: error E01: no lexeme begins here~build: 1 ok, 2 checked, 1 failed, 0 blocked~
";

// A line is how a session ends (D for Done, F for Failed, B for BadScript), its script and its output.
const COMMANDS: &str = "
F|flags NoImplicitPrelude~put A.hs 15~module A where~~put B.hs 24~module B where~import A~~del A.hs~build 1~quit~|B: failed~B.hs:2:8: error E10: module A not found~build: 0 ok, 0 checked, 1 failed, 0 blocked~
D|del A.hs~quit~|del: no file A.hs~
F|flags NoImplicitPrelude~del x~put A.hs 5~x = 1~build 1~quit~|del: no file x~A: failed~A.hs:1:1: error E13: header names Main~build: 0 ok, 0 checked, 1 failed, 0 blocked~
D|flags NoImplicitPrelude~put A.hs 1~x~del A.hs~del A.hs~put A.hs 15~module A where~~build 1~quit~|del: no file A.hs~A: checked: no interface~build: 1 ok, 1 checked, 0 failed, 0 blocked~
D|flags NoImplicitPrelude~put C.hs 1~x~put B.hs 1~x~put A.hs 1~x~del B.hs~put C.hs 15~module C where~~del A.hs~build 1~quit~|C: checked: no interface~build: 1 ok, 1 checked, 0 failed, 0 blocked~
D|flags NoImplicitPrelude~put A.hs 15~module A where~~build 1~del A.hs~build 1~quit~|A: checked: no interface~build: 1 ok, 1 checked, 0 failed, 0 blocked~build: 0 ok, 0 checked, 0 failed, 0 blocked~
D|put A.hs 1~x~del A.h~quit~|del: no file A.h~
B|put A.hs 1~x~del A.hs~del A.hs~del ~quit~|del: no file A.hs~bad script at byte 31~
F|flags NoImplicitPrelude~flags~put A.hs 15~module A where~~build 1~quit~|A: failed~A.hs:1:1: error E10: module Prelude not found~build: 0 ok, 0 checked, 1 failed, 0 blocked~
F|flags NoImplicitPrelude~flags Haskell2010~put A.hs 15~module A where~~build 1~quit~|A: failed~A.hs:1:1: error E10: module Prelude not found~build: 0 ok, 0 checked, 1 failed, 0 blocked~
F|flags NoImplicitPrelude ImplicitPrelude~put A.hs 15~module A where~~build 1~quit~|A: failed~A.hs:1:1: error E10: module Prelude not found~build: 0 ok, 0 checked, 1 failed, 0 blocked~
D|flags ImplicitPrelude NoImplicitPrelude~put A.hs 15~module A where~~build 1~quit~|A: checked: no interface~build: 1 ok, 1 checked, 0 failed, 0 blocked~
D|flags Haskell2010 NoImplicitPrelude NoMonomorphismRestriction~put A.hs 15~module A where~~build 1~quit~|A: checked: no interface~build: 1 ok, 1 checked, 0 failed, 0 blocked~
B|flags NoImplicitPrelude Haskell98~quit~|bad script at byte 0~
";

/// The bytes with a line feed for each tilde and a semicolon for each caret.
fn lines_of(alloc: Global, text: &[u8]) -> Result<Vec<u8>, NoMemory> {
    let mut lines = Vec::new(alloc);
    for byte in text {
        lines.push(match byte {
            b'~' => b'\n',
            b'^' => b';',
            _ => *byte,
        })?;
    }
    Ok(lines)
}

/// The two parts before and behind the first such byte; the second is empty where there is none.
fn cut_at(text: &[u8], mark: u8) -> (&[u8], &[u8]) {
    match text.iter().position(|byte| *byte == mark) {
        Some(at) if at < text.len() => (&text[..at], &text[at + 1..]),
        _ => (text, &[]),
    }
}

/// Puts the command that puts a file, given as its path, a colon and its text.
fn put_file(alloc: Global, script: &mut List<u8>, file: &[u8]) -> Result<(), NoMemory> {
    let (path, text) = cut_at(file, b':');
    let mut body = lines_of(alloc, text)?;
    if !body.is_empty() {
        body.push(b'\n')?;
    }
    script.extend(b"put ")?;
    script.extend(path)?;
    script.push(b' ')?;
    script.push_number(body.len() as u64)?;
    script.push(b'\n')?;
    script.extend(&body)?;
    script.push(b'\n')
}

/// The script that puts the files of a tree and builds it.
fn script_of(alloc: Global, tree: &[u8]) -> Result<List<u8>, NoMemory> {
    let mut script = List::new(alloc);
    script.extend(b"flags NoImplicitPrelude\n")?;
    for file in tree.split(|byte| *byte == b';') {
        put_file(alloc, &mut script, file)?;
    }
    script.extend(b"build 1\nquit\n")?;
    Ok(script)
}

/// Whether the session that puts and builds the row's tree, in pieces of any size, prints the row's report and answers
/// as it says.
fn is_answered<R: Threads>(threads: &R, alloc: Global, row: &[u8]) -> Result<bool, Fail> {
    let (tree, report) = cut_at(row, b'|');
    let script = script_of(alloc, tree)?;
    let report = lines_of(alloc, report)?;
    let sound = report.ends_with(b" 0 failed, 0 blocked\n");
    let expected = if sound { Status::Done } else { Status::Failed };
    for piece in [1usize, 2, 1000] {
        let (status, written) = answer(threads, alloc, script.as_slice(), piece, &[], &[])?;
        if written.as_slice() != report.as_slice() || status != expected {
            return Ok(false);
        }
    }
    Ok(true)
}

/// The first row of a table of trees whose session doesn't print its report or answers otherwise.
fn first_wrong<'a, R: Threads>(
    threads: &R,
    alloc: Global,
    rows: &'a [u8],
) -> Result<Option<&'a [u8]>, Fail> {
    for row in rows.split(|byte| *byte == b'\n') {
        if !row.is_empty() && !is_answered(threads, alloc, row)? {
            return Ok(Some(row));
        }
    }
    Ok(None)
}

/// Whether the row's session, in pieces of any size, ends and prints as it says.
fn is_played<R: Threads>(threads: &R, alloc: Global, row: &[u8]) -> Result<bool, Fail> {
    let (end, row) = cut_at(row, b'|');
    let (script, output) = cut_at(row, b'|');
    let script = lines_of(alloc, script)?;
    let output = lines_of(alloc, output)?;
    let expected = if end == b"D".as_slice() {
        Status::Done
    } else if end == b"F".as_slice() {
        Status::Failed
    } else {
        Status::BadScript
    };
    for piece in [1usize, 2, 1000] {
        let (status, written) = answer(threads, alloc, &script, piece, &[], &[])?;
        if written.as_slice() != output.as_slice() || status != expected {
            return Ok(false);
        }
    }
    Ok(true)
}

/// Sessions of several commands, with their ends and outputs.
#[test]
fn commands_are_carried_out(rt: HostRuntime) -> Result<(), Fail> {
    for row in COMMANDS.as_bytes().split(|byte| *byte == b'\n') {
        if !row.is_empty() {
            let alike = is_played(&rt, rt.alloc(), row)?;
            assert!(rt; alike, "{row:?}");
        }
    }
    Ok(())
}

/// Trees of the first form, and imports that are there or not.
#[test]
fn forms_and_imports_are_reported(rt: HostRuntime) -> Result<(), Fail> {
    let wrong = first_wrong(&rt, rt.alloc(), FORMS_AND_IMPORTS.as_bytes())?;
    assert!(rt; wrong.is_none(), "{wrong:?}");
    Ok(())
}

/// Names that are in scope, ambiguous, or defined twice.
#[test]
fn scopes_are_reported(rt: HostRuntime) -> Result<(), Fail> {
    let wrong = first_wrong(&rt, rt.alloc(), SCOPES.as_bytes())?;
    assert!(rt; wrong.is_none(), "{wrong:?}");
    Ok(())
}

/// Names in modules that others import, beside modules that fail.
#[test]
fn scopes_behind_faults_are_reported(rt: HostRuntime) -> Result<(), Fail> {
    let wrong = first_wrong(&rt, rt.alloc(), SCOPES_BEHIND_FAULTS.as_bytes())?;
    assert!(rt; wrong.is_none(), "{wrong:?}");
    Ok(())
}

/// Sources with comments, braces and layout.
#[test]
fn sources_are_laid_out(rt: HostRuntime) -> Result<(), Fail> {
    let wrong = first_wrong(&rt, rt.alloc(), LAID_OUT.as_bytes())?;
    assert!(rt; wrong.is_none(), "{wrong:?}");
    Ok(())
}

/// Cycles, boot files, and a Prelude of the tree.
#[test]
fn graphs_are_reported(rt: HostRuntime) -> Result<(), Fail> {
    let wrong = first_wrong(&rt, rt.alloc(), GRAPHS.as_bytes())?;
    assert!(rt; wrong.is_none(), "{wrong:?}");
    Ok(())
}

/// Pragmas, headers that are cut short, and forms of imports.
#[test]
fn headers_are_reported(rt: HostRuntime) -> Result<(), Fail> {
    let wrong = first_wrong(&rt, rt.alloc(), HEADERS.as_bytes())?;
    assert!(rt; wrong.is_none(), "{wrong:?}");
    Ok(())
}

/// Sources with a place at which no lexeme begins.
#[test]
fn bad_lexemes_are_reported(rt: HostRuntime) -> Result<(), Fail> {
    let wrong = first_wrong(&rt, rt.alloc(), BAD_LEXEMES.as_bytes())?;
    assert!(rt; wrong.is_none(), "{wrong:?}");
    Ok(())
}
