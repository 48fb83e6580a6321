//! The acceptance cases of damaged files and of depth: the demonstration database cut after each
//! of its bytes and with each of its bytes replaced, many blocks inside each other, and many files
//! that include each other.

use crate::Case;
use crate::Part::Times;

/// The demonstration database cut after so many bytes: on each line the first position of a span,
/// the position after its last one, the status, and the reply at each position of it.
pub(crate) const CUT: &str = "\
0 1 0 yes 0 statements 0 proofs
1 2 1 no demo0.mm 1 - X9 0
2 24 1 no demo0.mm 1 - X2 0
24 26 0 yes 0 statements 0 proofs
26 27 1 no demo0.mm 2 - X9 0
27 54 1 no demo0.mm 2 - X8 0
54 55 1 no demo0.mm 2 - X9 0
55 57 0 yes 1 statements 0 proofs
57 58 1 no demo0.mm 3 - X9 0
58 70 1 no demo0.mm 3 - X8 0
70 71 1 no demo0.mm 3 - X9 0
71 73 0 yes 2 statements 0 proofs
73 74 1 no demo0.mm 4 t X8 0
74 76 1 no demo0.mm 4 tt X8 0
76 77 1 no demo0.mm 4 tt X9 0
77 86 1 no demo0.mm 4 tt X8 0
86 87 1 no demo0.mm 4 tt X9 0
87 89 0 yes 3 statements 0 proofs
89 90 1 no demo0.mm 5 t X8 0
90 92 1 no demo0.mm 5 tr X8 0
92 93 1 no demo0.mm 5 tr X9 0
93 102 1 no demo0.mm 5 tr X8 0
102 103 1 no demo0.mm 5 tr X9 0
103 105 0 yes 4 statements 0 proofs
105 106 1 no demo0.mm 6 t X8 0
106 108 1 no demo0.mm 6 ts X8 0
108 109 1 no demo0.mm 6 ts X9 0
109 118 1 no demo0.mm 6 ts X8 0
118 119 1 no demo0.mm 6 ts X9 0
119 121 0 yes 5 statements 0 proofs
121 122 1 no demo0.mm 7 w X8 0
122 124 1 no demo0.mm 7 wp X8 0
124 125 1 no demo0.mm 7 wp X9 0
125 133 1 no demo0.mm 7 wp X8 0
133 134 1 no demo0.mm 7 wp X9 0
134 136 0 yes 6 statements 0 proofs
136 137 1 no demo0.mm 8 w X8 0
137 139 1 no demo0.mm 8 wq X8 0
139 140 1 no demo0.mm 8 wq X9 0
140 148 1 no demo0.mm 8 wq X8 0
148 149 1 no demo0.mm 8 wq X9 0
149 151 0 yes 7 statements 0 proofs
151 152 1 no demo0.mm 9 t X8 0
152 153 1 no demo0.mm 9 tz X8 0
153 155 1 no demo0.mm 9 tze X8 0
155 156 1 no demo0.mm 9 tze X9 0
156 165 1 no demo0.mm 9 tze X8 0
165 166 1 no demo0.mm 9 tze X9 0
166 168 0 yes 8 statements 0 proofs
168 169 1 no demo0.mm 10 t X8 0
169 170 1 no demo0.mm 10 tp X8 0
170 172 1 no demo0.mm 10 tpl X8 0
172 173 1 no demo0.mm 10 tpl X9 0
173 190 1 no demo0.mm 10 tpl X8 0
190 191 1 no demo0.mm 10 tpl X9 0
191 193 0 yes 9 statements 0 proofs
193 194 1 no demo0.mm 11 w X8 0
194 195 1 no demo0.mm 11 we X8 0
195 197 1 no demo0.mm 11 weq X8 0
197 198 1 no demo0.mm 11 weq X9 0
198 210 1 no demo0.mm 11 weq X8 0
210 211 1 no demo0.mm 11 weq X9 0
211 213 0 yes 10 statements 0 proofs
213 214 1 no demo0.mm 12 w X8 0
214 215 1 no demo0.mm 12 wi X8 0
215 217 1 no demo0.mm 12 wim X8 0
217 218 1 no demo0.mm 12 wim X9 0
218 235 1 no demo0.mm 12 wim X8 0
235 236 1 no demo0.mm 12 wim X9 0
236 238 0 yes 11 statements 0 proofs
238 239 1 no demo0.mm 13 a X8 0
239 241 1 no demo0.mm 13 a1 X8 0
241 242 1 no demo0.mm 13 a1 X9 0
242 279 1 no demo0.mm 13 a1 X8 0
279 280 1 no demo0.mm 13 a1 X9 0
280 282 0 yes 12 statements 0 proofs
282 283 1 no demo0.mm 14 a X8 0
283 285 1 no demo0.mm 14 a2 X8 0
285 286 1 no demo0.mm 14 a2 X9 0
286 305 1 no demo0.mm 14 a2 X8 0
305 306 1 no demo0.mm 14 a2 X9 0
306 308 0 yes 13 statements 0 proofs
308 309 1 no demo0.mm 15 - X9 0
309 313 1 no demo0.mm 15 - S7 0
313 314 1 no demo0.mm 16 m X8 0
314 315 1 no demo0.mm 16 mi X8 0
315 317 1 no demo0.mm 16 min X8 0
317 318 1 no demo0.mm 16 min X9 0
318 325 1 no demo0.mm 16 min X8 0
325 326 1 no demo0.mm 16 min X9 0
326 330 1 no demo0.mm 15 - S7 0
330 331 1 no demo0.mm 17 m X8 0
331 332 1 no demo0.mm 17 ma X8 0
332 334 1 no demo0.mm 17 maj X8 0
334 335 1 no demo0.mm 17 maj X9 0
335 351 1 no demo0.mm 17 maj X8 0
351 352 1 no demo0.mm 17 maj X9 0
352 356 1 no demo0.mm 15 - S7 0
356 357 1 no demo0.mm 18 m X8 0
357 359 1 no demo0.mm 18 mp X8 0
359 360 1 no demo0.mm 18 mp X9 0
360 367 1 no demo0.mm 18 mp X8 0
367 368 1 no demo0.mm 18 mp X9 0
368 370 1 no demo0.mm 15 - S7 0
370 371 1 no demo0.mm 19 - X9 0
371 373 0 yes 18 statements 0 proofs
373 374 1 no demo0.mm 20 t X8 0
374 375 1 no demo0.mm 20 th X8 0
375 377 1 no demo0.mm 20 th1 X8 0
377 378 1 no demo0.mm 20 th1 X9 0
378 389 1 no demo0.mm 20 th1 X8 0
389 390 1 no demo0.mm 20 th1 X9 0
390 520 1 no demo0.mm 20 th1 X8 0
520 521 1 no demo0.mm 23 th1 X9 0
521 523 0 yes 19 statements 1 proofs
";

/// The demonstration database with the byte at a position replaced by a dollar sign, likewise.
pub(crate) const WITH_DOLLAR: &str = "\
0 1 0 yes 19 statements 1 proofs
1 3 1 no demo0.mm 1 - X9 0
3 21 0 yes 19 statements 1 proofs
21 22 1 no demo0.mm 1 - X3 0
22 23 0 yes 19 statements 1 proofs
23 24 1 no demo0.mm 1 - X2 0
24 25 1 no demo0.mm 1 - X3 0
25 26 0 yes 19 statements 1 proofs
26 53 1 no demo0.mm 2 - X9 0
53 54 0 yes 19 statements 1 proofs
54 56 1 no demo0.mm 2 - X9 0
56 57 0 yes 19 statements 1 proofs
57 69 1 no demo0.mm 3 - X9 0
69 70 0 yes 19 statements 1 proofs
70 72 1 no demo0.mm 3 - X9 0
72 75 1 no demo0.mm 4 - X9 0
75 76 0 yes 19 statements 1 proofs
76 85 1 no demo0.mm 4 tt X9 0
85 86 0 yes 19 statements 1 proofs
86 88 1 no demo0.mm 4 tt X9 0
88 91 1 no demo0.mm 5 - X9 0
91 92 0 yes 19 statements 1 proofs
92 101 1 no demo0.mm 5 tr X9 0
101 102 0 yes 19 statements 1 proofs
102 104 1 no demo0.mm 5 tr X9 0
104 107 1 no demo0.mm 6 - X9 0
107 108 0 yes 19 statements 1 proofs
108 117 1 no demo0.mm 6 ts X9 0
117 118 0 yes 19 statements 1 proofs
118 120 1 no demo0.mm 6 ts X9 0
120 121 1 no demo0.mm 7 - S1 0
121 123 1 no demo0.mm 7 - X9 0
123 124 0 yes 19 statements 1 proofs
124 132 1 no demo0.mm 7 wp X9 0
132 133 0 yes 19 statements 1 proofs
133 135 1 no demo0.mm 7 wp X9 0
135 138 1 no demo0.mm 8 - X9 0
138 139 0 yes 19 statements 1 proofs
139 147 1 no demo0.mm 8 wq X9 0
147 148 0 yes 19 statements 1 proofs
148 150 1 no demo0.mm 8 wq X9 0
150 154 1 no demo0.mm 9 - X9 0
154 155 0 yes 19 statements 1 proofs
155 164 1 no demo0.mm 9 tze X9 0
164 165 0 yes 19 statements 1 proofs
165 167 1 no demo0.mm 9 tze X9 0
167 171 1 no demo0.mm 10 - X9 0
171 172 0 yes 19 statements 1 proofs
172 189 1 no demo0.mm 10 tpl X9 0
189 190 0 yes 19 statements 1 proofs
190 192 1 no demo0.mm 10 tpl X9 0
192 196 1 no demo0.mm 11 - X9 0
196 197 0 yes 19 statements 1 proofs
197 209 1 no demo0.mm 11 weq X9 0
209 210 0 yes 19 statements 1 proofs
210 212 1 no demo0.mm 11 weq X9 0
212 216 1 no demo0.mm 12 - X9 0
216 217 0 yes 19 statements 1 proofs
217 234 1 no demo0.mm 12 wim X9 0
234 235 0 yes 19 statements 1 proofs
235 237 1 no demo0.mm 12 wim X9 0
237 240 1 no demo0.mm 13 - X9 0
240 241 0 yes 19 statements 1 proofs
241 278 1 no demo0.mm 13 a1 X9 0
278 279 0 yes 19 statements 1 proofs
279 281 1 no demo0.mm 13 a1 X9 0
281 284 1 no demo0.mm 14 - X9 0
284 285 0 yes 19 statements 1 proofs
285 304 1 no demo0.mm 14 a2 X9 0
304 305 0 yes 19 statements 1 proofs
305 307 1 no demo0.mm 14 a2 X9 0
307 308 0 yes 19 statements 1 proofs
308 310 1 no demo0.mm 15 - X9 0
310 316 1 no demo0.mm 16 - X9 0
316 317 0 yes 19 statements 1 proofs
317 324 1 no demo0.mm 16 min X9 0
324 325 0 yes 19 statements 1 proofs
325 327 1 no demo0.mm 16 min X9 0
327 333 1 no demo0.mm 17 - X9 0
333 334 0 yes 19 statements 1 proofs
334 350 1 no demo0.mm 17 maj X9 0
350 351 0 yes 19 statements 1 proofs
351 353 1 no demo0.mm 17 maj X9 0
353 355 1 no demo0.mm 18 - X9 0
355 356 1 no demo0.mm 18 - S1 0
356 358 1 no demo0.mm 18 - X9 0
358 359 0 yes 19 statements 1 proofs
359 366 1 no demo0.mm 18 mp X9 0
366 367 0 yes 19 statements 1 proofs
367 369 1 no demo0.mm 18 mp X9 0
369 370 0 yes 19 statements 1 proofs
370 372 1 no demo0.mm 19 - X9 0
372 376 1 no demo0.mm 20 - X9 0
376 377 0 yes 19 statements 1 proofs
377 388 1 no demo0.mm 20 th1 X9 0
388 389 0 yes 19 statements 1 proofs
389 391 1 no demo0.mm 20 th1 X9 0
391 470 1 no demo0.mm 21 th1 X9 0
470 513 1 no demo0.mm 22 th1 X9 0
513 514 1 no demo0.mm 22 th1 S4 0
514 516 1 no demo0.mm 22 th1 X9 0
516 517 1 no demo0.mm 22 th1 S4 0
517 519 1 no demo0.mm 22 th1 X9 0
519 520 0 yes 19 statements 1 proofs
520 522 1 no demo0.mm 23 th1 X9 0
";

/// Blocks inside each other.
pub(crate) const NESTED_BLOCKS: [Case; 2] = [
    Case {
        name: "one hundred thousand blocks inside each other",
        files: &[(b"n.mm", &[Times(b"${ ", 100000), Times(b"$} ", 100000)])],
        reply: b"yes 200000 statements 0 proofs\n",
        status: 0,
    },
    Case {
        name: "one hundred thousand blocks, one of them left open",
        files: &[(b"n.mm", &[Times(b"${ ", 100000), Times(b"$} ", 99999)])],
        reply: b"no n.mm 1 - S7 0\n",
        status: 1,
    },
];
