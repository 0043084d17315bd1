//! The code texts of programs, from `tools/code_texts`, as `tools/code_vectors.py --table` writes them.

pub(crate) const ALL: &str = "\
rgo code 1
struct N int *N
global last *N
global count int
func pick 2 *N r0
var *N r0
var *N r1
var bool -
var *N r0
entry -[]
0 @117 +[] bin v2 eq v0 v1 -[r1]
1 @112 +[] branch v2 2 -[] 3 -[]
2 @126 +[] return v0
3 @148 +[] load v3 v0 1 -[]
4 @139 +[] return v3
5 @150 +[] jump 5 -[]
end
func supply 2 - -
var chan.*N r0
var *N r0
entry -[]
0 @187 +[] send v0 v1 -[]
1 @198 +[] close v0 -[r0]
2 @202 +[] return -
end
func all 3 *N r2
var *N r0
var *N r1
var int -
var bool -
var bool -
var bool -
var bool -
var bool -
var *N r2
var []*N r0
var []*N r0
var int -
var int -
var *N r0
var *N r0
var int -
var chan.*N r1
var chan.*N r1
var *N r1
var *N r1
var *N G
var int -
var *N G
var int -
var int -
var *N r0
var *N r0
var bool -
var bool -
var *N r0
var int -
var chan.*N r3
var chan.*N r3
var *N r2
var *N r2
entry -[]
0 @242 +[] bool v3 true -[]
1 @239 +[] copy v4 v3 -[]
2 @251 +[] not v5 v4 -[]
3 @255 +[] copy v6 v5 -[]
4 @255 +[] branch v6 7 -[] 5 -[]
5 @260 +[] isnil v7 v0 -[]
6 @255 +[] copy v6 v7 -[]
7 @248 +[] branch v6 8 -[r0,r1] 10 -[]
8 @278 +[] nil v8 -[]
9 @271 +[] return v8
10 @291 +[] slice v9 v2 -[]
11 @288 +[] copy v10 v9 -[]
12 @308 +[] int v11 0 -[]
13 @311 +[] put v10 v11 v0 -[]
14 @323 +[] int v12 0 -[]
15 @322 +[] at v13 v10 v12 -[]
16 @318 +[] copy v14 v13 -[]
17 @349 +[] len v15 v10 -[]
18 @332 +[] chan v16 v15 -[]
19 @329 +[] copy v17 v16 -[]
20 @357 +[] send v17 v1 -[]
21 @368 +[] recv v18 v17 -[]
22 @365 +[] copy v19 v18 -[]
23 @373 +[] go supply(v17,v19) R[r1] -[]
24 @397 +[] new v20 N -[]
25 @395 +[] set last v20 -[]
26 @413 +[] neg v21 v2 -[]
27 @411 +[] set count v21 -[]
28 @436 +[] get v22 last -[]
29 @441 +[] load v23 v22 0 -[]
30 @444 +[] get v24 count -[]
31 @428 +[] print \"all\",v23,v24 -[]
32 @461 +[] call v25 pick(v14,v19) R[r0,r1] P[r0] -[]
33 @454 +[] copy v26 v25 -[]
34 @475 +[] isnil v27 v26 -[]
35 @475 +[] not v28 v27 -[]
36 @469 +[] branch v28 37 -[] 40 -[r0]
37 @492 +[] load v29 v26 1 -[]
38 @488 +[] copy v26 v29 -[]
39 @469 +[] jump 34 -[]
40 @503 +[] int v30 0 -[]
41 @503 +[r3] chan v31 v30 -[]
42 @500 +[] copy v32 v31 -[]
43 @523 +[] close v32 -[r3]
44 @541 +[] nil v33 -[]
45 @535 +[] new v34 N -[]
46 @535 +[] store v34 0 v2 -[]
47 @535 +[] store v34 1 v33 -[]
48 @528 +[] return v34
49 @546 +[] jump 49 -[]
end
func main 0 - -
var int -
var *N r0
var *N r0
var int -
var *N r1
var *N r1
var int -
var *N r2
var *N r2
var int -
entry -[]
0 @576 +[] int v0 1 -[]
1 @579 +[r0] nil v1 -[]
2 @573 +[] new v2 N -[]
3 @573 +[] store v2 0 v0 -[]
4 @573 +[] store v2 1 v1 -[]
5 @588 +[] int v3 2 -[]
6 @591 +[r1] nil v4 -[]
7 @585 +[] new v5 N -[]
8 @585 +[] store v5 0 v3 -[]
9 @585 +[] store v5 1 v4 -[]
10 @597 +[] int v6 3 -[]
11 @572 +[r2] call v7 all(v2,v5,v6) R[r0,r1,r2] P[r2] -[]
12 @566 +[] copy v8 v7 -[]
13 @615 +[] load v9 v8 0 -[r2]
14 @612 +[] print v9 -[]
15 @618 +[] return -
end
";

pub(crate) const CALLS: &str = "\
rgo code 1
struct N int *N
func sum 2 int -
var *N r0
var *N r1
var int -
var int -
var int -
var int -
entry -[]
0 @92 +[] load v2 v0 0 -[r0]
1 @87 +[] copy v3 v2 -[]
2 @108 +[] load v4 v1 0 -[r1]
3 @104 +[] bin v5 add v3 v4 -[]
4 @95 +[] return v5
5 @110 +[] jump 5 -[]
end
func next 1 *N r1
var *N r0
var int -
var int -
var int -
var *N r1
var *N r1
entry -[]
0 @147 +[] load v1 v0 0 -[r0]
1 @151 +[] int v2 1 -[]
2 @149 +[] bin v3 add v1 v2 -[]
3 @154 +[] nil v4 -[]
4 @142 +[] new v5 N -[]
5 @142 +[] store v5 0 v3 -[]
6 @142 +[] store v5 1 v4 -[]
7 @135 +[] return v5
8 @159 +[] jump 8 -[]
end
func twice 1 *N r0
var *N r0
var int -
entry -[]
0 @200 +[] call v1 sum(v0,v0) R[r0,r0] P[r0] -[]
1 @196 +[] print v1 -[]
2 @209 +[] return v0
3 @218 +[] jump 3 -[]
end
func main 0 - -
var int -
var *N r0
var *N r0
var *N r0
var *N r0
var *N r1
var *N r1
var *N r0
var int -
var int -
entry -[]
0 @244 +[] int v0 21 -[]
1 @248 +[r0] nil v1 -[]
2 @241 +[] new v2 N -[]
3 @241 +[] store v2 0 v0 -[]
4 @241 +[] store v2 1 v1 -[]
5 @238 +[] copy v3 v2 -[]
6 @269 +[] call v4 twice(v3) R[r0] P[r0] -[]
7 @263 +[r1] call v5 next(v4) R[r0,r1] P[r1] -[]
8 @256 +[] copy v6 v5 -[]
9 @283 +[r0] call v7 next(v6) R[r1,r0] P[r0,r1] -[]
10 @277 +[] copy v3 v7 -[]
11 @303 +[] call v8 sum(v3,v6) R[r0,r1] P[r1] -[]
12 @313 +[] load v9 v6 0 -[r1]
13 @299 +[] print v8,v9 -[]
14 @316 +[] return -
end
";

pub(crate) const CHILD: &str = "\
rgo code 1
struct N int *N
func list 1 *N r0
var int -
var *N r0
var int -
var int -
var bool -
var *N r0
var int -
var int -
entry -[]
0 @82 +[] nil v1 -[]
1 @97 +[] int v2 0 -[]
2 @94 +[] copy v3 v2 -[]
3 @102 +[] bin v4 lt v3 v0 -[]
4 @88 +[] branch v4 5 -[] 13 -[]
5 @117 +[] new v5 N -[]
6 @117 +[] store v5 0 v3 -[]
7 @117 +[] store v5 1 v1 -[]
8 @115 +[] copy v1 v5 -[]
9 @108 +[] int v6 1 -[]
10 @108 +[] bin v7 add v3 v6 -[]
11 @108 +[] copy v3 v7 -[]
12 @88 +[] jump 3 -[]
13 @129 +[] return v1
14 @138 +[] jump 14 -[]
end
func sum 1 int -
var *N r0
var int -
var int -
var bool -
var bool -
var int -
var int -
var *N r0
entry -[]
0 @166 +[] int v1 0 -[]
1 @163 +[] copy v2 v1 -[]
2 @175 +[] isnil v3 v0 -[]
3 @175 +[] not v4 v3 -[]
4 @169 +[] branch v4 5 -[] 11 -[r0]
5 @191 +[] load v5 v0 0 -[]
6 @186 +[] bin v6 add v2 v5 -[]
7 @186 +[] copy v2 v6 -[]
8 @200 +[] load v7 v0 1 -[]
9 @196 +[] copy v0 v7 -[]
10 @169 +[] jump 2 -[]
11 @205 +[] return v2
12 @214 +[] jump 12 -[]
end
func child 2 - -
var *N r0
var chan.int r1
var int -
var int -
entry -[]
0 @262 +[] call v2 sum(v0) R[r0] P[] -[]
1 @258 +[] print v2 -[]
2 @273 +[] int v3 1 -[]
3 @270 +[] send v1 v3 -[r1]
4 @275 +[] return -
end
func main 0 - -
var int -
var chan.int r0
var chan.int r0
var int -
var *N r1
var *N r1
var int -
entry -[]
0 @296 +[] int v0 0 -[]
1 @296 +[r0] chan v1 v0 -[]
2 @293 +[] copy v2 v1 -[]
3 @322 +[] int v3 4 -[]
4 @321 +[r1] call v4 list(v3) R[r1] P[r1] -[]
5 @314 +[] copy v5 v4 -[]
6 @326 +[] go child(v5,v2) R[r1,r0] -[r1]
7 @342 +[] recv v6 v2 -[r0]
8 @346 +[] return -
end
";

pub(crate) const FIELD: &str = "\
rgo code 1
struct N int *N
func main 0 - -
var *N r0
var *N r0
var int -
entry -[]
0 @76 +[r0] new v0 N -[]
1 @73 +[] copy v1 v0 -[]
2 @98 +[] load v2 v1 0 -[r0]
3 @95 +[] print v2 -[]
4 @101 +[] return -
end
";

pub(crate) const GLOBALS: &str = "\
rgo code 1
struct N int *N
global head *N
global count int
func push 1 - -
var *N G
var *N G
var int -
var int -
var int -
entry -[]
0 @112 +[] get v1 head -[]
1 @110 +[] store v0 1 v1 -[]
2 @123 +[] set head v0 -[]
3 @128 +[] get v2 count -[]
4 @133 +[] int v3 1 -[]
5 @133 +[] bin v4 add v2 v3 -[]
6 @133 +[] set count v4 -[]
7 @136 +[] return -
end
func main 0 - -
var int -
var *N G
var *N G
var int -
var *N r0
var *N r0
var *N r0
var int -
var *N G
var *N G
var *N G
var int -
var int -
entry -[]
0 @162 +[] int v0 1 -[]
1 @165 +[] nil v1 -[]
2 @159 +[] new v2 N -[]
3 @159 +[] store v2 0 v0 -[]
4 @159 +[] store v2 1 v1 -[]
5 @158 +[] call - push(v2) R[] P[] -[]
6 @180 +[] int v3 2 -[]
7 @183 +[r0] nil v4 -[]
8 @177 +[] new v5 N -[]
9 @177 +[] store v5 0 v3 -[]
10 @177 +[] store v5 1 v4 -[]
11 @174 +[] copy v6 v5 -[]
12 @199 +[] load v7 v6 0 -[r0]
13 @202 +[] nil v8 -[]
14 @194 +[] new v9 N -[]
15 @194 +[] store v9 0 v7 -[]
16 @194 +[] store v9 1 v8 -[]
17 @193 +[] call - push(v9) R[] P[] -[]
18 @221 +[] get v10 head -[]
19 @226 +[] load v11 v10 0 -[]
20 @229 +[] get v12 count -[]
21 @220 +[] print v11,v12 -[]
22 @236 +[] return -
end
";

pub(crate) const GOROUTINES: &str = "\
rgo code 1
struct N int *N
func add 3 - -
var *N r0
var *N r1
var chan.int r2
var int -
var int -
var int -
var int -
entry -[]
0 @100 +[] load v3 v0 0 -[r0]
1 @95 +[] copy v4 v3 -[]
2 @114 +[] load v5 v1 0 -[r1]
3 @110 +[] bin v6 add v4 v5 -[]
4 @105 +[] send v2 v6 -[]
5 @122 +[] close v2 -[r2]
6 @126 +[] return -
end
func main 0 - -
var int -
var *N r0
var *N r0
var *N r0
var int -
var chan.int r1
var chan.int r1
var int -
var int -
entry -[]
0 @152 +[] int v0 21 -[]
1 @156 +[r0] nil v1 -[]
2 @149 +[] new v2 N -[]
3 @149 +[] store v2 0 v0 -[]
4 @149 +[] store v2 1 v1 -[]
5 @146 +[] copy v3 v2 -[]
6 @167 +[] int v4 0 -[]
7 @167 +[r1] chan v5 v4 -[]
8 @164 +[] copy v6 v5 -[]
9 @183 +[] go add(v3,v3,v6) R[r0,r0,r1] -[r0]
10 @212 +[] recv v7 v6 -[]
11 @217 +[] recv v8 v6 -[r1]
12 @211 +[] print v7,v8 -[]
13 @222 +[] return -
end
";

pub(crate) const LISTS: &str = "\
rgo code 1
struct N int *N
func list 1 *N r0
var int -
var *N r0
var int -
var int -
var bool -
var *N r0
var int -
var int -
entry -[]
0 @82 +[] nil v1 -[]
1 @97 +[] int v2 0 -[]
2 @94 +[] copy v3 v2 -[]
3 @102 +[] bin v4 lt v3 v0 -[]
4 @88 +[] branch v4 5 -[] 13 -[]
5 @117 +[] new v5 N -[]
6 @117 +[] store v5 0 v3 -[]
7 @117 +[] store v5 1 v1 -[]
8 @115 +[] copy v1 v5 -[]
9 @108 +[] int v6 1 -[]
10 @108 +[] bin v7 add v3 v6 -[]
11 @108 +[] copy v3 v7 -[]
12 @88 +[] jump 3 -[]
13 @129 +[] return v1
14 @138 +[] jump 14 -[]
end
func sum 1 int -
var *N r0
var int -
var int -
var bool -
var bool -
var int -
var int -
var *N r0
entry -[]
0 @166 +[] int v1 0 -[]
1 @163 +[] copy v2 v1 -[]
2 @175 +[] isnil v3 v0 -[]
3 @175 +[] not v4 v3 -[]
4 @169 +[] branch v4 5 -[] 11 -[r0]
5 @191 +[] load v5 v0 0 -[]
6 @186 +[] bin v6 add v2 v5 -[]
7 @186 +[] copy v2 v6 -[]
8 @200 +[] load v7 v0 1 -[]
9 @196 +[] copy v0 v7 -[]
10 @169 +[] jump 2 -[]
11 @205 +[] return v2
12 @214 +[] jump 12 -[]
end
func main 0 - -
var int -
var int -
var int -
var int -
var int -
var bool -
var int -
var *N r0
var int -
var int -
var int -
var int -
entry -[]
0 @235 +[] int v0 0 -[]
1 @232 +[] copy v1 v0 -[]
2 @247 +[] int v2 0 -[]
3 @244 +[] copy v3 v2 -[]
4 @254 +[] int v4 1000 -[]
5 @252 +[] bin v5 lt v3 v4 -[]
6 @238 +[] branch v5 7 -[] 16 -[]
7 @280 +[] int v6 10 -[]
8 @279 +[r0] call v7 list(v6) R[r0] P[r0] -[]
9 @274 +[] call v8 sum(v7) R[r0] P[] -[]
10 @268 +[] bin v9 add v1 v8 -[]
11 @268 +[] copy v1 v9 -[]
12 @261 +[] int v10 1 -[]
13 @261 +[] bin v11 add v3 v10 -[]
14 @261 +[] copy v3 v11 -[]
15 @238 +[] jump 4 -[]
16 @299 +[] print v1 -[]
17 @303 +[] return -
end
";

pub(crate) const LOOP: &str = "\
rgo code 1
struct N int *N
func main 0 - -
var *N r0
var int -
var int -
var int -
var bool -
var *N r0
var int -
var int -
var bool -
var bool -
var int -
var *N r0
entry -[]
0 @79 +[r0] nil v0 -[]
1 @94 +[] int v1 0 -[]
2 @91 +[] copy v2 v1 -[]
3 @101 +[] int v3 3 -[]
4 @99 +[] bin v4 lt v2 v3 -[]
5 @85 +[] branch v4 6 -[] 14 -[]
6 @116 +[] new v5 N -[]
7 @116 +[] store v5 0 v2 -[]
8 @116 +[] store v5 1 v0 -[]
9 @114 +[] copy v0 v5 -[]
10 @105 +[] int v6 1 -[]
11 @105 +[] bin v7 add v2 v6 -[]
12 @105 +[] copy v2 v7 -[]
13 @85 +[] jump 3 -[]
14 @135 +[] isnil v8 v0 -[]
15 @135 +[] not v9 v8 -[]
16 @129 +[] branch v9 17 -[] 22 -[r0]
17 @160 +[] load v10 v0 0 -[]
18 @157 +[] print v10 -[]
19 @171 +[] load v11 v0 1 -[]
20 @167 +[] copy v0 v11 -[]
21 @129 +[] jump 14 -[]
22 @176 +[] return -
end
";

pub(crate) const RENEWED: &str = "\
rgo code 1
struct N int *N
func f 1 *N r1
var *N r0
var int -
var int -
var int -
var *N r1
var *N r1
entry -[]
0 @86 +[] load v1 v0 0 -[r0]
1 @90 +[] int v2 1 -[]
2 @88 +[] bin v3 add v1 v2 -[]
3 @93 +[] nil v4 -[]
4 @81 +[] new v5 N -[]
5 @81 +[] store v5 0 v3 -[]
6 @81 +[] store v5 1 v4 -[]
7 @74 +[] return v5
8 @98 +[] jump 8 -[]
end
func main 0 - -
var int -
var *N r0
var *N r0
var *N r0
var *N r0
var int -
entry -[]
0 @122 +[] int v0 1 -[]
1 @125 +[r0] nil v1 -[]
2 @119 +[] new v2 N -[]
3 @119 +[] store v2 0 v0 -[]
4 @119 +[] store v2 1 v1 -[]
5 @116 +[] copy v3 v2 -[]
6 @136 +[] call v4 f(v3) R[r0,r0] P[r0] -[]
7 @133 +[] copy v3 v4 -[]
8 @155 +[] load v5 v3 0 -[r0]
9 @152 +[] print v5 -[]
10 @158 +[] return -
end
";

pub(crate) const SHARED: &str = "\
rgo code 1
struct N int *N
func f 2 int -
var *N r0
var *N r1
var int -
var int -
var int -
var int -
entry -[]
0 @85 +[] load v2 v0 0 -[r0]
1 @80 +[] copy v3 v2 -[]
2 @101 +[] load v4 v1 0 -[r1]
3 @97 +[] bin v5 add v3 v4 -[]
4 @88 +[] return v5
5 @103 +[] jump 5 -[]
end
func main 0 - -
var int -
var *N r0
var *N r0
var *N r0
var int -
entry -[]
0 @127 +[] int v0 21 -[]
1 @131 +[r0] nil v1 -[]
2 @124 +[] new v2 N -[]
3 @124 +[] store v2 0 v0 -[]
4 @124 +[] store v2 1 v1 -[]
5 @121 +[] copy v3 v2 -[]
6 @150 +[] call v4 f(v3,v3) R[r0,r0] P[r0] -[r0]
7 @148 +[] print v4 -[]
8 @158 +[] return -
end
";

pub(crate) const STARTED: &str = "\
rgo code 1
struct N int *N
func f 3 - -
var *N r0
var *N r1
var chan.int r2
var int -
var int -
var int -
var int -
entry -[]
0 @93 +[] load v3 v0 0 -[r0]
1 @88 +[] copy v4 v3 -[]
2 @107 +[] load v5 v1 0 -[r1]
3 @103 +[] bin v6 add v4 v5 -[]
4 @98 +[] send v2 v6 -[r2]
5 @109 +[] return -
end
func main 0 - -
var int -
var *N r0
var *N r0
var *N r0
var int -
var chan.int r1
var chan.int r1
var int -
entry -[]
0 @133 +[] int v0 21 -[]
1 @137 +[r0] nil v1 -[]
2 @130 +[] new v2 N -[]
3 @130 +[] store v2 0 v0 -[]
4 @130 +[] store v2 1 v1 -[]
5 @127 +[] copy v3 v2 -[]
6 @148 +[] int v4 0 -[]
7 @148 +[r1] chan v5 v4 -[]
8 @145 +[] copy v6 v5 -[]
9 @164 +[] go f(v3,v3,v6) R[r0,r0,r1] -[r0]
10 @191 +[] recv v7 v6 -[r1]
11 @190 +[] print v7 -[]
12 @196 +[] return -
end
";
