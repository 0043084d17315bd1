//! Code texts of programs whose goroutines wait for each other. They are what `rgo emit` prints for the Go programs that the comments
//! describe.

/// 20 goroutines each send a number on one channel without a buffer, and `main` receives them: `190`.
pub static COLLECT: &str = "\
rgo code 1
func send 2 - -
var int -
var chan.int r0
entry -[]
0 @73 +[] send v1 v0 -[r0]
1 @78 +[] return -
end
func main 0 - -
var int -
var chan.int r0
var chan.int r0
var int -
var int -
var int -
var bool -
var int -
var int -
var int -
var int -
var int -
var int -
var int -
var bool -
var int -
var int -
var int -
var int -
entry -[]
0 @107 +[] int v0 0 -[]
1 @107 +[r0] chan v1 v0 -[]
2 @104 +[] copy v2 v1 -[]
3 @132 +[] int v3 0 -[]
4 @129 +[] copy v4 v3 -[]
5 @139 +[] int v5 20 -[]
6 @137 +[] bin v6 lt v4 v5 -[]
7 @123 +[] branch v6 8 -[] 13 -[]
8 @151 +[] go send(v4,v2) R[r0] -[]
9 @144 +[] int v7 1 -[]
10 @144 +[] bin v8 add v4 v7 -[]
11 @144 +[] copy v4 v8 -[]
12 @123 +[] jump 5 -[]
13 @182 +[] int v9 0 -[]
14 @179 +[] copy v10 v9 -[]
15 @194 +[] int v11 0 -[]
16 @191 +[] copy v12 v11 -[]
17 @201 +[] int v13 20 -[]
18 @199 +[] bin v14 lt v12 v13 -[]
19 @185 +[] branch v14 20 -[] 27 -[r0]
20 @220 +[] recv v15 v2 -[]
21 @217 +[] bin v16 add v10 v15 -[]
22 @217 +[] copy v10 v16 -[]
23 @206 +[] int v17 1 -[]
24 @206 +[] bin v18 add v12 v17 -[]
25 @206 +[] copy v12 v18 -[]
26 @185 +[] jump 17 -[]
27 @245 +[] print v10 -[]
28 @251 +[] return -
end
";

/// 12 workers wait for 50 numbers on a channel with a buffer, which is closed at the end, and send their squares on another: `42925`.
pub static JOBS: &str = "\
rgo code 1
func work 2 - -
var chan.int r0
var chan.int r1
var int -
var int -
var int -
var bool -
var int -
var int -
var int -
entry -[]
0 @74 +[] recv v2 v0 -[]
1 @71 +[] copy v3 v2 -[]
2 @86 +[] int v4 0 -[]
3 @84 +[] bin v5 gt v3 v4 -[]
4 @65 +[] branch v5 5 -[] 10 -[r0]
5 @117 +[] bin v6 mul v3 v3 -[]
6 @112 +[] send v1 v6 -[]
7 @93 +[] recv v7 v0 -[]
8 @91 +[] copy v3 v7 -[]
9 @65 +[] jump 2 -[]
10 @136 +[] int v8 0 -[]
11 @133 +[] send v1 v8 -[r1]
12 @138 +[] return -
end
func main 0 - -
var int -
var chan.int r0
var chan.int r0
var int -
var chan.int r1
var chan.int r1
var int -
var int -
var int -
var bool -
var int -
var int -
var int -
var int -
var int -
var int -
var int -
var bool -
var int -
var int -
var int -
var bool -
var int -
var int -
var int -
entry -[]
0 @179 +[] int v0 3 -[]
1 @164 +[r0] chan v1 v0 -[]
2 @161 +[] copy v2 v1 -[]
3 @209 +[] int v3 2 -[]
4 @194 +[r1] chan v4 v3 -[]
5 @191 +[] copy v5 v4 -[]
6 @222 +[] int v6 0 -[]
7 @219 +[] copy v7 v6 -[]
8 @229 +[] int v8 12 -[]
9 @227 +[] bin v9 lt v7 v8 -[]
10 @213 +[] branch v9 11 -[] 16 -[]
11 @241 +[] go work(v2,v5) R[r0,r1] -[]
12 @234 +[] int v10 1 -[]
13 @234 +[] bin v11 add v7 v10 -[]
14 @234 +[] copy v7 v11 -[]
15 @213 +[] jump 8 -[]
16 @268 +[] go feed(v2) R[r0] -[r0]
17 @290 +[] int v12 0 -[]
18 @287 +[] copy v13 v12 -[]
19 @305 +[] int v14 0 -[]
20 @302 +[] copy v15 v14 -[]
21 @315 +[] int v16 12 -[]
22 @313 +[] bin v17 lt v15 v16 -[]
23 @293 +[] branch v17 24 -[] 35 -[r1]
24 @328 +[] recv v18 v5 -[]
25 @325 +[] copy v19 v18 -[]
26 @348 +[] int v20 0 -[]
27 @345 +[] bin v21 eq v19 v20 -[]
28 @340 +[] branch v21 29 -[] 32 -[]
29 @359 +[] int v22 1 -[]
30 @359 +[] bin v23 add v15 v22 -[]
31 @359 +[] copy v15 v23 -[]
32 @372 +[] bin v24 add v13 v19 -[]
33 @372 +[] copy v13 v24 -[]
34 @293 +[] jump 21 -[]
35 @392 +[] print v13 -[]
36 @398 +[] return -
end
func feed 1 - -
var chan.int r0
var int -
var int -
var int -
var bool -
var int -
var int -
entry -[]
0 @438 +[] int v1 1 -[]
1 @435 +[] copy v2 v1 -[]
2 @446 +[] int v3 50 -[]
3 @443 +[] bin v4 le v2 v3 -[]
4 @429 +[] branch v4 5 -[] 10 -[]
5 @463 +[] send v0 v2 -[]
6 @451 +[] int v5 1 -[]
7 @451 +[] bin v6 add v2 v5 -[]
8 @451 +[] copy v2 v6 -[]
9 @429 +[] jump 2 -[]
10 @477 +[] close v0 -[r0]
11 @484 +[] return -
end
";

/// A server answers one request of each of 20 clients, on a channel of the client's own: `210`.
pub static SERVER: &str = "\
rgo code 1
struct Request int chan.int
func serve 1 - -
var chan.*Request r0
var *Request r0
var *Request r0
var chan.int r0
var int -
var int -
var int -
entry -[]
0 @133 +[] recv v1 v0 -[]
1 @130 +[] copy v2 v1 -[]
2 @148 +[] load v3 v2 1 -[]
3 @159 +[] load v4 v2 0 -[]
4 @168 +[] int v5 1 -[]
5 @166 +[] bin v6 add v4 v5 -[]
6 @154 +[] send v3 v6 -[]
7 @120 +[] jump 0 -[]
8 @173 +[] return -
end
func ask 3 - -
var int -
var chan.*Request r0
var chan.int r1
var int -
var chan.int r0
var chan.int r0
var *Request r0
var int -
entry -[]
0 @243 +[] int v3 0 -[]
1 @243 +[] chan v4 v3 -[]
2 @240 +[] copy v5 v4 -[]
3 @271 +[] new v6 Request -[]
4 @271 +[] store v6 0 v0 -[]
5 @271 +[] store v6 1 v5 -[]
6 @268 +[] send v1 v6 -[]
7 @299 +[] recv v7 v5 -[r0]
8 @296 +[] send v2 v7 -[r1]
9 @307 +[] return -
end
func main 0 - -
var int -
var chan.*Request r0
var chan.*Request r0
var int -
var chan.int r1
var chan.int r1
var int -
var int -
var int -
var bool -
var int -
var int -
var int -
var int -
var int -
var int -
var int -
var bool -
var int -
var int -
var int -
var int -
entry -[]
0 @337 +[] int v0 0 -[]
1 @337 +[r0] chan v1 v0 -[]
2 @334 +[] copy v2 v1 -[]
3 @366 +[] int v3 0 -[]
4 @366 +[r1] chan v4 v3 -[]
5 @363 +[] copy v5 v4 -[]
6 @382 +[] go serve(v2) R[r0] -[]
7 @411 +[] int v6 0 -[]
8 @408 +[] copy v7 v6 -[]
9 @418 +[] int v8 20 -[]
10 @416 +[] bin v9 lt v7 v8 -[]
11 @402 +[] branch v9 12 -[] 17 -[r0]
12 @430 +[] go ask(v7,v2,v5) R[r0,r1] -[]
13 @423 +[] int v10 1 -[]
14 @423 +[] bin v11 add v7 v10 -[]
15 @423 +[] copy v7 v11 -[]
16 @402 +[] jump 9 -[]
17 @467 +[] int v12 0 -[]
18 @464 +[] copy v13 v12 -[]
19 @479 +[] int v14 0 -[]
20 @476 +[] copy v15 v14 -[]
21 @486 +[] int v16 20 -[]
22 @484 +[] bin v17 lt v15 v16 -[]
23 @470 +[] branch v17 24 -[] 31 -[r1]
24 @505 +[] recv v18 v5 -[]
25 @502 +[] bin v19 add v13 v18 -[]
26 @502 +[] copy v13 v19 -[]
27 @491 +[] int v20 1 -[]
28 @491 +[] bin v21 add v15 v20 -[]
29 @491 +[] copy v15 v21 -[]
30 @470 +[] jump 21 -[]
31 @527 +[] print v13 -[]
32 @533 +[] return -
end
";
