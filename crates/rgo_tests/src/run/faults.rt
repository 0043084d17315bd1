//! Tables of calls with lines after the head, in which a read or a write fails.

use super::calls::{HEAD, Outside};
use super::rows::are_called;

/// A read returns one byte.
const BYTES: &str = "
> rgo run
func main() { fmt.Println(1); fmt.Println(2); fmt.Println(3) }
< 0
1
2
3

> rgo check
func main() { fmt.Println(1); fmt.Println(2); fmt.Println(3) }
< 0
";

/// The first read fails.
const FIRST_READ: &str = "
> rgo emit
func main() { fmt.Println(1); fmt.Println(2); fmt.Println(3) }
< 9
!
rgo: read failed

> rgo run
func main() { fmt.Println(1); fmt.Println(2); fmt.Println(3) }
< 9
!
rgo: read failed

> rgo check
func main() { fmt.Println(1); fmt.Println(2); fmt.Println(3) }
< 9
!
rgo: read failed
";

/// The first write to `out` fails.
const FIRST_WRITE: &str = "
> rgo emit
func main() { fmt.Println(1); fmt.Println(2); fmt.Println(3) }
< 10
!
rgo: write failed

> rgo run
func main() { for i := 1; i < 5; i++ { fmt.Println(i) } }
< 10
!
rgo: write failed
";

/// The first writes to both sinks fail.
const BOTH_WRITES: &str = "
> rgo emit
func main() { fmt.Println(1); fmt.Println(2); fmt.Println(3) }
< 10
";

/// The first write to `err` fails.
const FIRST_REPORT: &str = "
> rgo emit
func main() {
< 10

> rgo run
func main() {
\ts := make([]int, 3)
\tfmt.Println(s[3])
}
< 10

> rgo run
func main() { c := make(chan int); <-c }
< 10

> rgo run
func g(c chan int) { c <- 1 }
func main() { var c chan int; go g(c); <-c }
< 10

> rgo check
func main() { fmt.Println(1); fmt.Println(2); fmt.Println(3) }
< 0

> rgo check

< 10
";

/// The fourth read of nine bytes fails.
const FOURTH_READ: &str = "
> rgo run
func main() { fmt.Println(1); fmt.Println(2); fmt.Println(3) }
< 9
!
rgo: read failed
";

/// The first read of fifty bytes fails.
const FIRST_OF_50: &str = "
> rgo run
func main() { fmt.Println(\"hi\", 1, true) }
< 9
!
rgo: read failed

> rgo run
func main() { for i := 1; i < 5; i++ { fmt.Println(i) } }
< 9
!
rgo: read failed
";

/// The second read of fifty bytes fails.
const SECOND_OF_50: &str = "
> rgo run
func main() { fmt.Println(\"hi\", 1, true) }
< 9
!
rgo: read failed

> rgo run
func main() { for i := 1; i < 5; i++ { fmt.Println(i) } }
< 9
!
rgo: read failed
";

/// The second write to `out` fails.
const SECOND_WRITE: &str = "
> rgo run
func main() { fmt.Println(1); fmt.Println(2); fmt.Println(3) }
< 10
1
!
rgo: write failed

> rgo run
func main() { for i := 1; i < 5; i++ { fmt.Println(i) } }
< 10
1
!
rgo: write failed

> rgo check
func main() { fmt.Println(1); fmt.Println(2); fmt.Println(3) }
< 0
";

/// The second write to `out` and the first to `err` fail.
const SECOND_WRITE_AND_REPORT: &str = "
> rgo run
func main() { fmt.Println(1); fmt.Println(2); fmt.Println(3) }
< 10
1
";

/// The third write to `out` fails.
const THIRD_WRITE: &str = "
> rgo run
func main() { for i := 1; i < 5; i++ { fmt.Println(i) } }
< 10
1
2
!
rgo: write failed
";

/// The fourth write to `out` fails.
const FOURTH_WRITE: &str = "
> rgo run
func main() { for i := 1; i < 5; i++ { fmt.Println(i) } }
< 10
1
2
3
!
rgo: write failed
";

/// The fifth write to `out` would fail.
const FIFTH_WRITE: &str = "
> rgo run
func main() { for i := 1; i < 5; i++ { fmt.Println(i) } }
< 0
1
2
3
4
";

#[test]
fn faults_end_the_call(rt: HostRuntime) {
    are_called(&rt, HEAD, BYTES, "\n", Outside(1, 0, 0, 0));
    are_called(&rt, HEAD, FIRST_READ, "\n", Outside(1000, 1, 0, 0));
    are_called(&rt, HEAD, FIRST_WRITE, "\n", Outside(1000, 0, 1, 0));
    are_called(&rt, HEAD, BOTH_WRITES, "\n", Outside(1000, 0, 1, 1));
    are_called(&rt, HEAD, FIRST_REPORT, "\n", Outside(1000, 0, 0, 1));
    are_called(&rt, HEAD, FOURTH_READ, "\n", Outside(9, 4, 0, 0));
    are_called(&rt, HEAD, FIRST_OF_50, "\n", Outside(50, 1, 0, 0));
    are_called(&rt, HEAD, SECOND_OF_50, "\n", Outside(50, 2, 0, 0));
    are_called(&rt, HEAD, SECOND_WRITE, "\n", Outside(1000, 0, 2, 0));
    are_called(
        &rt,
        HEAD,
        SECOND_WRITE_AND_REPORT,
        "\n",
        Outside(1000, 0, 2, 1),
    );
    are_called(&rt, HEAD, THIRD_WRITE, "\n", Outside(1000, 0, 3, 0));
    are_called(&rt, HEAD, FOURTH_WRITE, "\n", Outside(1000, 0, 4, 0));
    are_called(&rt, HEAD, FIFTH_WRITE, "\n", Outside(1000, 0, 5, 0));
}

#[test]
fn a_refusal_that_cannot_be_reported_has_its_status(rt: HostRuntime) {
    let outside = Outside(1000, 0, 0, 1);
    are_called(&rt, "", "\n> rgo run\n\n< 10\n", "", outside);
}
