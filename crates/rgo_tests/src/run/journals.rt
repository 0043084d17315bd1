//! Runs that are recorded and journals that are replayed, as tables of calls, worked out by hand from the code of the
//! programs.
//!
//! `tools/marked_tables.py --table` writes this file from `tools/marked_programs/journals.calls`.

/// Programs, and the journals of their runs.
pub(super) const RECORDED: &str = "
> rgo record // two constants, the print, and the return
package main
import \"fmt\"
func main() { fmt.Println(\"hi\", 1, true) }

< 0
hi 1 true
!
rgo picks 1
one 0
one 0
one 0
one 0
text

> rgo record -- // main makes its channel, starts the other and waits; they meet
package main
func f(c chan int) { c <- 7 }
func main() { c := make(chan int); go f(c); <-c }

< 0
!
rgo picks 1
one 0
one 0
one 0
one 0
one 1
meet 0 1
one 1
one 0
text

> rgo record // the line of a trap follows the journal
package main
func main() {
\tx := 0
\tx = 1 / x
}

< 2
!
rgo picks 1
one 0
one 0
one 0
one 0
text
rgo: 4:8: trap 3 DivideZero

> rgo record --steps 3 // the steps are spent just when all wait: the replay is a deadlock, as below
package main
func main() { c := make(chan int); <-c }

< 8
!
rgo picks 1
one 0
one 0
one 0
text
rgo: steps spent

> rgo record --regions 1 // the second object has no region; its `nil` has not been made
package main
type N struct { v int; p *N }
func main() { x := &N{1, nil}; y := &N{2, nil}; x.v = y.v }

< 5
!
rgo picks 1
one 0
one 0
one 0
one 0
one 0
one 0
one 0
text
rgo: regions spent

> rgo record --pages 1 --page-words 16 // the second slice has no page
package main
func main() { s := make([]int, 15); t := make([]int, 15); s[0] = t[0] }

< 4
!
rgo picks 1
one 0
one 0
one 0
one 0
text
rgo: pages spent

> rgo record --pages 2 // the slice has a word more than a page, and takes two
package main
func main() { s := make([]int, 256); s[0] = 1 }

< 0
!
rgo picks 1
one 0
one 0
one 0
one 0
one 0
one 0
one 0
text

> rgo record --pages 1 // its second page is not there
package main
func main() { s := make([]int, 256); s[0] = 1 }

< 4
!
rgo picks 1
one 0
text
rgo: pages spent

> rgo record // the slice takes a page more than any object has
package main
func main() { s := make([]int, 16385); s[0] = 1 }

< 6
!
rgo picks 1
one 0
text
rgo: object too large

> rgo record --goroutines 2 // `main` is the other
package main
func f() { }
func main() { go f(); go f() }

< 12
!
rgo picks 1
one 0
text
rgo: goroutines spent

> rgo record // a refused text has no journal
package main
func main() {
\tbreak
}

< 1
!
rgo: 3:2: type 33 LoopOutside
";

/// Journals and programs that follow them.
pub(super) const REPLAYED: &str = "
> rgo replay // two constants, the print, and the return
rgo picks 1
one 0
one 0
one 0
one 0
text
package main
import \"fmt\"
func main() { fmt.Println(\"hi\", 1, true) }

< 0
hi 1 true

> rgo replay -- // without the return
rgo picks 1
one 0
one 0
one 0
text
package main
import \"fmt\"
func main() { fmt.Println(\"hi\", 1, true) }

< 13
hi 1 true
!
rgo: replay unfinished

> rgo replay // a pick after the return
rgo picks 1
one 0
one 0
one 0
one 0
one 0
text
package main
import \"fmt\"
func main() { fmt.Println(\"hi\", 1, true) }

< 1
hi 1 true
!
rgo: line 6: pick

> rgo replay // no goroutine meets another
rgo picks 1
meet 0 1
one 0
one 0
one 0
one 0
text
package main
import \"fmt\"
func main() { fmt.Println(\"hi\", 1, true) }

< 1
!
rgo: line 2: pick

> rgo replay // no picks
rgo picks 1
text
package main
func main() {}

< 13
!
rgo: replay unfinished

> rgo replay // a goroutine that does not exist
rgo picks 1
one 4294967295
text
package main
func main() {}

< 1
!
rgo: line 2: pick

> rgo replay // no program has a `select`
rgo picks 1
case 0 0
text
package main
func main() {}

< 1
!
rgo: line 2: pick

> rgo replay // the same, with a sender
rgo picks 1
casemeet 0 0 1
text
package main
func main() {}

< 1
!
rgo: line 2: pick

> rgo replay // main receives what the other goroutine sends
rgo picks 1
one 0
one 0
one 0
one 0
one 1
meet 0 1
one 0
one 0
text
package main
import \"fmt\"
func g(c chan int) { c <- 7 }
func main() { c := make(chan int); go g(c); fmt.Println(<-c) }

< 0
7

> rgo replay // a receiver does not meet itself
rgo picks 1
one 0
one 0
one 0
one 0
one 1
meet 0 0
text
package main
import \"fmt\"
func g(c chan int) { c <- 7 }
func main() { c := make(chan int); go g(c); fmt.Println(<-c) }

< 1
!
rgo: line 7: pick

> rgo replay // receiver and sender exchanged
rgo picks 1
one 0
one 0
one 0
one 0
one 1
meet 1 0
text
package main
import \"fmt\"
func g(c chan int) { c <- 7 }
func main() { c := make(chan int); go g(c); fmt.Println(<-c) }

< 1
!
rgo: line 7: pick

> rgo replay // no goroutine sends
rgo picks 1
one 0
one 0
one 0
text
package main
func main() { c := make(chan int); <-c }

< 3
!
rgo: deadlock

> rgo replay // a deadlock has no step
rgo picks 1
one 0
one 0
one 0
one 0
text
package main
func main() { c := make(chan int); <-c }

< 1
!
rgo: line 5: pick

> rgo replay // a trap, at its place in the text after the journal
rgo picks 1
one 0
one 0
one 0
one 0
one 0
text
package main
import \"fmt\"
func main() {
\tx := 0
\tfmt.Println(1)
\tx = 1 / x
}

< 13
1
!
rgo: replay unfinished

> rgo replay // the same, one pick later
rgo picks 1
one 0
one 0
one 0
one 0
one 0
one 0
text
package main
import \"fmt\"
func main() {
\tx := 0
\tfmt.Println(1)
\tx = 1 / x
}

< 2
1
!
rgo: 6:8: trap 3 DivideZero
";

/// What is refused: journals without form, and texts after a journal, whose places are counted from where they begin.
pub(super) const REFUSED: &str = "
> rgo replay // no journal
package main
func main() {}

< 1
!
rgo: line 1: picks text

> rgo replay // another first line
rgo picks 2
text
package main
func main() {}

< 1
!
rgo: line 1: picks text

> rgo replay // no last line
rgo picks 1
one 0

< 1
!
rgo: line 3: picks text

> rgo replay // the last line has no newline
rgo picks 1
one 0
text
< 1
!
rgo: line 3: picks text

> rgo replay // a leading zero
rgo picks 1
one 0
one 00
text
package main
func main() {}

< 1
!
rgo: line 3: picks text

> rgo replay // a number of more than 32 bits
rgo picks 1
one 4294967296
text
package main
func main() {}

< 1
!
rgo: line 2: picks text

> rgo replay // two spaces
rgo picks 1
one  0
text
package main
func main() {}

< 1
!
rgo: line 2: picks text

> rgo replay // a space at the end
rgo picks 1
one 0\x20
text
package main
func main() {}

< 1
!
rgo: line 2: picks text

> rgo replay // a number is missing
rgo picks 1
meet 0
text
package main
func main() {}

< 1
!
rgo: line 2: picks text

> rgo replay // a number too many
rgo picks 1
case 0 0 0
text
package main
func main() {}

< 1
!
rgo: line 2: picks text

> rgo replay // the journal is refused before the text, and before any pick is taken
rgo picks 1
one 5
two 0
text
not a program

< 1
!
rgo: line 3: picks text

> rgo replay // the text is refused before any pick is taken
rgo picks 1
one 5
text
package main
func main() {
\tbreak
}

< 1
!
rgo: 3:2: type 33 LoopOutside

> rgo replay // no text
rgo picks 1
one 0
text

< 1
!
rgo: 1:1: syntax

> rgo replay // code texts are not replayed
rgo picks 1
text
rgo code 1

< 1
!
rgo: 1:1: syntax
";
