//! The programs that `runs` runs, and where their results are.

/// Recursive calls. `main` is function 2; the Fibonacci number is its variable 1.
pub(crate) const FIBONACCI: &str = "\
package main

import \"fmt\"

func size() int { return 16 }

func fibonacci(n int) int {
    if n < 2 {
        return n
    }
    return fibonacci(n-1) + fibonacci(n-2)
}

func main() {
    fmt.Println(fibonacci(size()))
}
";

/// Loops and calls. `main` is function 2; its variables 1 and 3 are the best number and its steps.
pub(crate) const COLLATZ: &str = "\
package main

import \"fmt\"

func size() int { return 200 }

func steps(n int) int {
    count := 0
    for n != 1 {
        if n%2 == 0 {
            n /= 2
        } else {
            n = 3*n + 1
        }
        count++
    }
    return count
}

func main() {
    best := 0
    most := 0
    for n := 1; n < size(); n++ {
        count := steps(n)
        if count > most {
            most = count
            best = n
        }
    }
    fmt.Println(best, most)
}
";

/// A loop in `main`, which is function 0; the sum is its variable 1.
pub(crate) const SUM: &str = "\
package main

import \"fmt\"

func main() {
    s := 0
    for i := 0; i < 1000; i++ {
        s = s + i
    }
    fmt.Println(s)
}
";

/// A division by 0, before which there are three instructions. Variable 1 is 7.
pub(crate) const TRAP: &str = "\
package main

import \"fmt\"

func main() {
    x := 7
    y := 0
    fmt.Println(x / y)
}
";

/// Calls without a result, and a return from the middle of a function. Variable 0 is 5.
pub(crate) const CALLS: &str = "\
package main

import \"fmt\"

func nothing(n int) {
    if n == 3 {
        return
    }
    nothing(n + 1)
}

func main() {
    x := 5
    nothing(0)
    fmt.Println(x)
}
";
