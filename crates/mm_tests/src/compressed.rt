//! The acceptance cases of compressed proofs.

use crate::Case;
use crate::Part::{Text, Times};
use mm_core_tests::databases::{CAT, DEMO_COMPRESSED, DIST, FIRST_HEAD, HEAD, LIMIT};

/// Compressed proofs that are accepted.
pub(crate) const ACCEPTED: [Case; 10] = [
    Case {
        name: "the compressed demonstration database",
        files: &[(b"demo0c.mm", &[Text(DEMO_COMPRESSED)])],
        reply: b"yes 19 statements 1 proofs\n",
        status: 0,
    },
    Case {
        name: "letters cut by white space",
        files: &[(
            b"demo0c.mm",
            &[
                Text(HEAD),
                Text(b"th1 $p |- t = t $=\n"),
                Text(b"      ( tze tpl weq a2 wim a1 mp ) ABCZADZ AADZAE ZJJKF "),
                Text(b"LIAAGHH\n"),
                Text(b"$.\n"),
            ],
        )],
        reply: b"yes 19 statements 1 proofs\n",
        status: 0,
    },
    Case {
        name: "a listed label that is not used",
        files: &[(
            b"h.mm",
            &[
                Text(HEAD),
                Text(b"a3 $a |- t = t $. th1 $p |- t = t $= ( tze tpl weq a2 wim "),
                Text(b"a1 mp a3 ) ABCZADZAADZAEZKKLFMJAAGHH $.\n"),
            ],
        )],
        reply: b"yes 20 statements 1 proofs\n",
        status: 0,
    },
    Case {
        name: "a hypothesis tagged twice and referred to",
        files: &[(
            b"h.mm",
            &[
                Text(HEAD),
                Text(b"th2 $p term ( t + t ) $= ( tpl ) AZZCB $.\n"),
            ],
        )],
        reply: b"yes 19 statements 1 proofs\n",
        status: 0,
    },
    Case {
        name: "a list with a label twice and with a mandatory hypothesis",
        files: &[(
            b"h.mm",
            &[
                Text(HEAD),
                Text(b"th2 $p term ( t + t ) $= ( tpl tpl tt ) ADC $.\n"),
            ],
        )],
        reply: b"yes 19 statements 1 proofs\n",
        status: 0,
    },
    Case {
        name: "a reference that is tagged",
        files: &[(
            b"h.mm",
            &[
                Text(HEAD),
                Text(b"th2 $p term ( t + t ) $= ( tpl ) AZCZB $.\n"),
            ],
        )],
        reply: b"yes 19 statements 1 proofs\n",
        status: 0,
    },
    Case {
        name: "a compressed proof in a small database",
        files: &[(
            b"first.mm",
            &[
                Text(FIRST_HEAD),
                Text(b"th $p term ( 0 + 0 ) $= ( tze tpl ) AAB $.\n"),
            ],
        )],
        reply: b"yes 7 statements 1 proofs\n",
        status: 0,
    },
    Case {
        name: "a number cut by white space",
        files: &[(
            b"h.mm",
            &[
                Text(HEAD),
                Text(b"th2 $p term 0 $= ( "),
                Times(b"wp ", 20),
                Text(b"tze ) U A $.\n"),
            ],
        )],
        reply: b"yes 19 statements 1 proofs\n",
        status: 0,
    },
    Case {
        name: "a number cut by a comment and a new line",
        files: &[(
            b"h.mm",
            &[
                Text(HEAD),
                Text(b"th2 $p term 0 $= ( "),
                Times(b"wp ", 120),
                Text(b"tze ) U $( c $) U\nA $.\n"),
            ],
        )],
        reply: b"yes 19 statements 1 proofs\n",
        status: 0,
    },
    Case {
        name: "a list with a mandatory hypothesis",
        files: &[(
            b"h.mm",
            &[Text(HEAD), Text(b"th2 $p term t $= ( tt ) A $.\n")],
        )],
        reply: b"yes 19 statements 1 proofs\n",
        status: 0,
    },
];

/// Compressed proofs of long expressions, or of many labels, that are accepted.
pub(crate) const DOUBLINGS: [Case; 3] = [
    Case {
        name: "the longest expression a step may push",
        files: &[(
            b"limit.mm",
            &[
                Text(LIMIT),
                Text(b"th $p f $= ( one odd end ) A"),
                Times(b"B", 19),
                Text(b"ZDC $.\n"),
            ],
        )],
        reply: b"yes 10 statements 1 proofs\n",
        status: 0,
    },
    Case {
        name: "a proof whose expansion has millions of labels",
        files: &[(
            b"cat.mm",
            &[
                Text(CAT),
                Text(b"th $p e $= ( nil cat ) "),
                Text(b"AABZCBZDBZEBZFBZGBZHBZIBZJBZKBZLBZMBZNBZOBZPBZQBZRBZSBZTBZUA"),
                Text(b"BZUBBZUCBZUDBZUEB $.\n"),
            ],
        )],
        reply: b"yes 7 statements 1 proofs\n",
        status: 0,
    },
    Case {
        name: "a proof of one hundred doublings",
        files: &[(
            b"cat.mm",
            &[
                Text(CAT),
                Text(b"th $p e $= ( nil cat ) "),
                Text(b"AABZCBZDBZEBZFBZGBZHBZIBZJBZKBZLBZMBZNBZOBZPBZQBZRBZSBZTBZUA"),
                Text(b"BZUBBZUCBZUDBZUEBZUFBZUGBZUHBZUIBZUJBZUKBZULBZUMBZUNBZUOBZUP"),
                Text(b"BZUQBZURBZUSBZUTBZVABZVBBZVCBZVDBZVEBZVFBZVGBZVHBZVIBZVJBZVK"),
                Text(b"BZVLBZVMBZVNBZVOBZVPBZVQBZVRBZVSBZVTBZWABZWBBZWCBZWDBZWEBZWF"),
                Text(b"BZWGBZWHBZWIBZWJBZWKBZWLBZWMBZWNBZWOBZWPBZWQBZWRBZWSBZWTBZXA"),
                Text(b"BZXBBZXCBZXDBZXEBZXFBZXGBZXHBZXIBZXJBZXKBZXLBZXMBZXNBZXOBZXP"),
                Text(b"BZXQBZXRBZXSBZXTBZYAB $.\n"),
            ],
        )],
        reply: b"yes 7 statements 1 proofs\n",
        status: 0,
    },
];

/// Faults of the steps that the letters spell.
pub(crate) const FAULTS_OF_STEPS: [Case; 10] = [
    Case {
        name: "a number over what there is",
        files: &[(
            b"h.mm",
            &[Text(HEAD), Text(b"th2 $p term t $= ( tze ) C $.\n")],
        )],
        reply: b"no h.mm 20 th2 P6 1\n",
        status: 1,
    },
    Case {
        name: "a tag before any step",
        files: &[(
            b"h.mm",
            &[Text(HEAD), Text(b"th2 $p term t $= ( tze ) ZA $.\n")],
        )],
        reply: b"no h.mm 20 th2 P7 1\n",
        status: 1,
    },
    Case {
        name: "a tag alone",
        files: &[(b"h.mm", &[Text(HEAD), Text(b"th2 $p term t $= ( ) Z $.\n")])],
        reply: b"no h.mm 20 th2 P7 1\n",
        status: 1,
    },
    Case {
        name: "a tag before a number over what there is",
        files: &[(
            b"h.mm",
            &[Text(HEAD), Text(b"th2 $p term t $= ( ) ZT $.\n")],
        )],
        reply: b"no h.mm 20 th2 P7 1\n",
        status: 1,
    },
    Case {
        name: "a number of very many leading digits",
        files: &[(
            b"h.mm",
            &[
                Text(HEAD),
                Text(b"th2 $p term t $= ( ) YYYYYYYYYYYYYYYYT $.\n"),
            ],
        )],
        reply: b"no h.mm 20 th2 P6 1\n",
        status: 1,
    },
    Case {
        name: "a reference to a tag of a reference",
        files: &[(
            b"h.mm",
            &[
                Text(HEAD),
                Text(b"th2 $p term ( t + t ) $= ( tpl ) AZCZDBZEB $.\n"),
            ],
        )],
        reply: b"no h.mm 20 th2 P13 7\n",
        status: 1,
    },
    Case {
        name: "a number of a tag that is not yet made",
        files: &[(
            b"h.mm",
            &[
                Text(HEAD),
                Text(b"th2 $p term ( t + t ) $= ( tpl ) ACZB $.\n"),
            ],
        )],
        reply: b"no h.mm 20 th2 P6 2\n",
        status: 1,
    },
    Case {
        name: "one doubling more than a step may push",
        files: &[(
            b"limit.mm",
            &[
                Text(LIMIT),
                Text(b"th $p f $= ( one odd end ) A"),
                Times(b"B", 20),
                Text(b"ZDC $.\n"),
            ],
        )],
        reply: b"limit limit.mm 10 th L1 21\n",
        status: 4,
    },
    Case {
        name: "two distinct variables replaced by one in a compressed proof",
        files: &[(
            b"dist.mm",
            &[Text(DIST), Text(b"t1 $p |- z R z $= ( ax ) AAB $.\n")],
        )],
        reply: b"no dist.mm 14 t1 P11 3\n",
        status: 1,
    },
    Case {
        name: "a pair that is not active in a compressed proof",
        files: &[(
            b"dist.mm",
            &[Text(DIST), Text(b"t2 $p |- x R z $= ( ax ) ABC $.\n")],
        )],
        reply: b"no dist.mm 14 t2 P12 3\n",
        status: 1,
    },
];

/// Faults of the list and of the letters.
pub(crate) const FAULTS_OF_TEXT: [Case; 9] = [
    Case {
        name: "a list of labels that is not closed",
        files: &[(
            b"h.mm",
            &[Text(HEAD), Text(b"th2 $p term t $= ( tze A $.\n")],
        )],
        reply: b"no h.mm 20 th2 P1 0\n",
        status: 1,
    },
    Case {
        name: "a small letter",
        files: &[(
            b"h.mm",
            &[Text(HEAD), Text(b"th2 $p term t $= ( ) Aa $.\n")],
        )],
        reply: b"no h.mm 20 th2 P4 0\n",
        status: 1,
    },
    Case {
        name: "leading digits at the end",
        files: &[(b"h.mm", &[Text(HEAD), Text(b"th2 $p term t $= ( ) U $.\n")])],
        reply: b"no h.mm 20 th2 P5 0\n",
        status: 1,
    },
    Case {
        name: "leading digits before a tag",
        files: &[(
            b"h.mm",
            &[Text(HEAD), Text(b"th2 $p term t $= ( ) UZ $.\n")],
        )],
        reply: b"no h.mm 20 th2 P5 0\n",
        status: 1,
    },
    Case {
        name: "leading digits before a small letter",
        files: &[(
            b"h.mm",
            &[Text(HEAD), Text(b"th2 $p term t $= ( ) Ua $.\n")],
        )],
        reply: b"no h.mm 20 th2 P4 0\n",
        status: 1,
    },
    Case {
        name: "an unknown listed label comes before an inactive one",
        files: &[(
            b"h.mm",
            &[Text(HEAD), Text(b"th2 $p term t $= ( min nope ) $.\n")],
        )],
        reply: b"no h.mm 20 th2 P2 0\n",
        status: 1,
    },
    Case {
        name: "an inactive hypothesis in a list, not used",
        files: &[(
            b"h.mm",
            &[Text(HEAD), Text(b"th2 $p term t $= ( min ) A $.\n")],
        )],
        reply: b"no h.mm 20 th2 P3 0\n",
        status: 1,
    },
    Case {
        name: "an unknown label in a list, not used",
        files: &[(
            b"h.mm",
            &[Text(HEAD), Text(b"th2 $p term t $= ( nope ) A $.\n")],
        )],
        reply: b"no h.mm 20 th2 P2 0\n",
        status: 1,
    },
    Case {
        name: "a compressed proof without letters",
        files: &[(
            b"h.mm",
            &[Text(HEAD), Text(b"th2 $p term t $= ( tze ) $.\n")],
        )],
        reply: b"no h.mm 20 th2 P13 1\n",
        status: 1,
    },
];

/// Numbers that 32 or 64 bits don't hold, and a tag for each of 619 steps.
pub(crate) const GREAT_NUMBERS: [Case; 4] = [
    Case {
        name: "a number one over a round power of two",
        files: &[(
            b"h.mm",
            &[
                Text(HEAD),
                Text(b"th2 $p term t $= ( tze ) XUXXWWXVUXVXQ $.\n"),
            ],
        )],
        reply: b"no h.mm 20 th2 P6 1\n",
        status: 1,
    },
    Case {
        name: "a number two over a round power of two",
        files: &[(
            b"h.mm",
            &[
                Text(HEAD),
                Text(b"th2 $p term t $= ( tze ) XUXXWWXVUXVXR $.\n"),
            ],
        )],
        reply: b"no h.mm 20 th2 P6 1\n",
        status: 1,
    },
    Case {
        name: "a number two over a rounder power of two",
        files: &[(
            b"h.mm",
            &[
                Text(HEAD),
                Text(b"th2 $p term t $= ( tze ) VYVUXUUXYWYVVUUVUXWYVWYVYYR $.\n"),
            ],
        )],
        reply: b"no h.mm 20 th2 P6 1\n",
        status: 1,
    },
    Case {
        name: "a proof of six hundred and twenty doublings",
        files: &[(
            b"cat.mm",
            &[
                Text(CAT),
                Text(b"th $p e $= ( nil cat ) "),
                Text(b"AABZCBZDBZEBZFBZGBZHBZIBZJBZKBZLBZMBZNBZOBZPBZQBZRBZSBZTBZUA"),
                Text(b"BZUBBZUCBZUDBZUEBZUFBZUGBZUHBZUIBZUJBZUKBZULBZUMBZUNBZUOBZUP"),
                Text(b"BZUQBZURBZUSBZUTBZVABZVBBZVCBZVDBZVEBZVFBZVGBZVHBZVIBZVJBZVK"),
                Text(b"BZVLBZVMBZVNBZVOBZVPBZVQBZVRBZVSBZVTBZWABZWBBZWCBZWDBZWEBZWF"),
                Text(b"BZWGBZWHBZWIBZWJBZWKBZWLBZWMBZWNBZWOBZWPBZWQBZWRBZWSBZWTBZXA"),
                Text(b"BZXBBZXCBZXDBZXEBZXFBZXGBZXHBZXIBZXJBZXKBZXLBZXMBZXNBZXOBZXP"),
                Text(b"BZXQBZXRBZXSBZXTBZYABZYBBZYCBZYDBZYEBZYFBZYGBZYHBZYIBZYJBZYK"),
                Text(b"BZYLBZYMBZYNBZYOBZYPBZYQBZYRBZYSBZYTBZUUABZUUBBZUUCBZUUDBZUU"),
                Text(b"EBZUUFBZUUGBZUUHBZUUIBZUUJBZUUKBZUULBZUUMBZUUNBZUUOBZUUPBZUU"),
                Text(b"QBZUURBZUUSBZUUTBZUVABZUVBBZUVCBZUVDBZUVEBZUVFBZUVGBZUVHBZUV"),
                Text(b"IBZUVJBZUVKBZUVLBZUVMBZUVNBZUVOBZUVPBZUVQBZUVRBZUVSBZUVTBZUW"),
                Text(b"ABZUWBBZUWCBZUWDBZUWEBZUWFBZUWGBZUWHBZUWIBZUWJBZUWKBZUWLBZUW"),
                Text(b"MBZUWNBZUWOBZUWPBZUWQBZUWRBZUWSBZUWTBZUXABZUXBBZUXCBZUXDBZUX"),
                Text(b"EBZUXFBZUXGBZUXHBZUXIBZUXJBZUXKBZUXLBZUXMBZUXNBZUXOBZUXPBZUX"),
                Text(b"QBZUXRBZUXSBZUXTBZUYABZUYBBZUYCBZUYDBZUYEBZUYFBZUYGBZUYHBZUY"),
                Text(b"IBZUYJBZUYKBZUYLBZUYMBZUYNBZUYOBZUYPBZUYQBZUYRBZUYSBZUYTBZVU"),
                Text(b"ABZVUBBZVUCBZVUDBZVUEBZVUFBZVUGBZVUHBZVUIBZVUJBZVUKBZVULBZVU"),
                Text(b"MBZVUNBZVUOBZVUPBZVUQBZVURBZVUSBZVUTBZVVABZVVBBZVVCBZVVDBZVV"),
                Text(b"EBZVVFBZVVGBZVVHBZVVIBZVVJBZVVKBZVVLBZVVMBZVVNBZVVOBZVVPBZVV"),
                Text(b"QBZVVRBZVVSBZVVTBZVWABZVWBBZVWCBZVWDBZVWEBZVWFBZVWGBZVWHBZVW"),
                Text(b"IBZVWJBZVWKBZVWLBZVWMBZVWNBZVWOBZVWPBZVWQBZVWRBZVWSBZVWTBZVX"),
                Text(b"ABZVXBBZVXCBZVXDBZVXEBZVXFBZVXGBZVXHBZVXIBZVXJBZVXKBZVXLBZVX"),
                Text(b"MBZVXNBZVXOBZVXPBZVXQBZVXRBZVXSBZVXTBZVYABZVYBBZVYCBZVYDBZVY"),
                Text(b"EBZVYFBZVYGBZVYHBZVYIBZVYJBZVYKBZVYLBZVYMBZVYNBZVYOBZVYPBZVY"),
                Text(b"QBZVYRBZVYSBZVYTBZWUABZWUBBZWUCBZWUDBZWUEBZWUFBZWUGBZWUHBZWU"),
                Text(b"IBZWUJBZWUKBZWULBZWUMBZWUNBZWUOBZWUPBZWUQBZWURBZWUSBZWUTBZWV"),
                Text(b"ABZWVBBZWVCBZWVDBZWVEBZWVFBZWVGBZWVHBZWVIBZWVJBZWVKBZWVLBZWV"),
                Text(b"MBZWVNBZWVOBZWVPBZWVQBZWVRBZWVSBZWVTBZWWABZWWBBZWWCBZWWDBZWW"),
                Text(b"EBZWWFBZWWGBZWWHBZWWIBZWWJBZWWKBZWWLBZWWMBZWWNBZWWOBZWWPBZWW"),
                Text(b"QBZWWRBZWWSBZWWTBZWXABZWXBBZWXCBZWXDBZWXEBZWXFBZWXGBZWXHBZWX"),
                Text(b"IBZWXJBZWXKBZWXLBZWXMBZWXNBZWXOBZWXPBZWXQBZWXRBZWXSBZWXTBZWY"),
                Text(b"ABZWYBBZWYCBZWYDBZWYEBZWYFBZWYGBZWYHBZWYIBZWYJBZWYKBZWYLBZWY"),
                Text(b"MBZWYNBZWYOBZWYPBZWYQBZWYRBZWYSBZWYTBZXUABZXUBBZXUCBZXUDBZXU"),
                Text(b"EBZXUFBZXUGBZXUHBZXUIBZXUJBZXUKBZXULBZXUMBZXUNBZXUOBZXUPBZXU"),
                Text(b"QBZXURBZXUSBZXUTBZXVABZXVBBZXVCBZXVDBZXVEBZXVFBZXVGBZXVHBZXV"),
                Text(b"IBZXVJBZXVKBZXVLBZXVMBZXVNBZXVOBZXVPBZXVQBZXVRBZXVSBZXVTBZXW"),
                Text(b"ABZXWBBZXWCBZXWDBZXWEBZXWFBZXWGBZXWHBZXWIBZXWJBZXWKBZXWLBZXW"),
                Text(b"MBZXWNBZXWOBZXWPBZXWQBZXWRBZXWSBZXWTBZXXABZXXBBZXXCBZXXDBZXX"),
                Text(b"EBZXXFBZXXGBZXXHBZXXIBZXXJBZXXKBZXXLBZXXMBZXXNBZXXOBZXXPBZXX"),
                Text(b"QBZXXRBZXXSBZXXTBZXYABZXYBBZXYCBZXYDBZXYEBZXYFBZXYGBZXYHBZXY"),
                Text(b"IBZXYJBZXYKBZXYLBZXYMBZXYNBZXYOBZXYPBZXYQBZXYRBZXYSBZXYTBZYU"),
                Text(b"ABZYUBBZYUCBZYUDBZYUEBZYUFBZYUGBZYUHBZYUIBZYUJBZYUKBZYULBZYU"),
                Text(b"MBZYUNBZYUOBZYUPBZYUQBZYURBZYUSBZYUTBZYVABZYVBBZYVCBZYVDBZYV"),
                Text(b"EBZYVFBZYVGBZYVHBZYVIBZYVJBZYVKBZYVLBZYVMBZYVNBZYVOBZYVPBZYV"),
                Text(b"QBZYVRBZYVSBZYVTBZYWABZYWBBZYWCBZYWDBZYWEBZYWFBZYWGBZYWHBZYW"),
                Text(b"IBZYWJBZYWKBZYWLBZYWMBZYWNBZYWOBZYWPBZYWQBZYWRBZYWSBZYWTBZYX"),
                Text(b"ABZYXBBZYXCBZYXDBZYXEBZYXFBZYXGBZYXHBZYXIBZYXJBZYXKBZYXLBZYX"),
                Text(b"MBZYXNBZYXOBZYXPBZYXQBZYXRBZYXSBZYXTBZYYABZYYBBZYYCBZYYDBZYY"),
                Text(b"EBZYYFBZYYGBZYYHBZYYIBZYYJBZYYKBZYYLBZYYMBZYYNBZYYOBZYYPBZYY"),
                Text(b"QBZYYRBZYYSBZYYTBZUUUAB $.\n"),
            ],
        )],
        reply: b"yes 7 statements 1 proofs\n",
        status: 0,
    },
];

/// A number names the label in its place of the list.
pub(crate) const LISTED_INDICES: [Case; 9] = [
    Case {
        name: "the letters T name the label in place 20 of the list",
        files: &[(
            b"h.mm",
            &[
                Text(HEAD),
                Text(b"th2 $p term 0 $= ( "),
                Times(b"wp ", 19),
                Text(b"tze ) T $.\n"),
            ],
        )],
        reply: b"yes 19 statements 1 proofs\n",
        status: 0,
    },
    Case {
        name: "the letters UA name the label in place 21 of the list",
        files: &[(
            b"h.mm",
            &[
                Text(HEAD),
                Text(b"th2 $p term 0 $= ( "),
                Times(b"wp ", 20),
                Text(b"tze ) UA $.\n"),
            ],
        )],
        reply: b"yes 19 statements 1 proofs\n",
        status: 0,
    },
    Case {
        name: "the letters UT name the label in place 40 of the list",
        files: &[(
            b"h.mm",
            &[
                Text(HEAD),
                Text(b"th2 $p term 0 $= ( "),
                Times(b"wp ", 39),
                Text(b"tze ) UT $.\n"),
            ],
        )],
        reply: b"yes 19 statements 1 proofs\n",
        status: 0,
    },
    Case {
        name: "the letters VA name the label in place 41 of the list",
        files: &[(
            b"h.mm",
            &[
                Text(HEAD),
                Text(b"th2 $p term 0 $= ( "),
                Times(b"wp ", 40),
                Text(b"tze ) VA $.\n"),
            ],
        )],
        reply: b"yes 19 statements 1 proofs\n",
        status: 0,
    },
    Case {
        name: "the letters YT name the label in place 120 of the list",
        files: &[(
            b"h.mm",
            &[
                Text(HEAD),
                Text(b"th2 $p term 0 $= ( "),
                Times(b"wp ", 119),
                Text(b"tze ) YT $.\n"),
            ],
        )],
        reply: b"yes 19 statements 1 proofs\n",
        status: 0,
    },
    Case {
        name: "the letters UUA name the label in place 121 of the list",
        files: &[(
            b"h.mm",
            &[
                Text(HEAD),
                Text(b"th2 $p term 0 $= ( "),
                Times(b"wp ", 120),
                Text(b"tze ) UUA $.\n"),
            ],
        )],
        reply: b"yes 19 statements 1 proofs\n",
        status: 0,
    },
    Case {
        name: "the letters YYT name the label in place 620 of the list",
        files: &[(
            b"h.mm",
            &[
                Text(HEAD),
                Text(b"th2 $p term 0 $= ( "),
                Times(b"wp ", 619),
                Text(b"tze ) YYT $.\n"),
            ],
        )],
        reply: b"yes 19 statements 1 proofs\n",
        status: 0,
    },
    Case {
        name: "the letters UUUA name the label in place 621 of the list",
        files: &[(
            b"h.mm",
            &[
                Text(HEAD),
                Text(b"th2 $p term 0 $= ( "),
                Times(b"wp ", 620),
                Text(b"tze ) UUUA $.\n"),
            ],
        )],
        reply: b"yes 19 statements 1 proofs\n",
        status: 0,
    },
    Case {
        name: "the letters A name the label in place 1 of the list",
        files: &[(
            b"h.mm",
            &[Text(HEAD), Text(b"th2 $p term 0 $= ( tze ) A $.\n")],
        )],
        reply: b"yes 19 statements 1 proofs\n",
        status: 0,
    },
];

/// A number over the length of the list.
pub(crate) const PAST_THE_LIST: [Case; 8] = [
    Case {
        name: "the letters T are over a list of 19 labels",
        files: &[(
            b"h.mm",
            &[
                Text(HEAD),
                Text(b"th2 $p term 0 $= ( "),
                Times(b"tze ", 19),
                Text(b") T $.\n"),
            ],
        )],
        reply: b"no h.mm 20 th2 P6 1\n",
        status: 1,
    },
    Case {
        name: "the letters UA are over a list of 20 labels",
        files: &[(
            b"h.mm",
            &[
                Text(HEAD),
                Text(b"th2 $p term 0 $= ( "),
                Times(b"tze ", 20),
                Text(b") UA $.\n"),
            ],
        )],
        reply: b"no h.mm 20 th2 P6 1\n",
        status: 1,
    },
    Case {
        name: "the letters UT are over a list of 39 labels",
        files: &[(
            b"h.mm",
            &[
                Text(HEAD),
                Text(b"th2 $p term 0 $= ( "),
                Times(b"tze ", 39),
                Text(b") UT $.\n"),
            ],
        )],
        reply: b"no h.mm 20 th2 P6 1\n",
        status: 1,
    },
    Case {
        name: "the letters VA are over a list of 40 labels",
        files: &[(
            b"h.mm",
            &[
                Text(HEAD),
                Text(b"th2 $p term 0 $= ( "),
                Times(b"tze ", 40),
                Text(b") VA $.\n"),
            ],
        )],
        reply: b"no h.mm 20 th2 P6 1\n",
        status: 1,
    },
    Case {
        name: "the letters YT are over a list of 119 labels",
        files: &[(
            b"h.mm",
            &[
                Text(HEAD),
                Text(b"th2 $p term 0 $= ( "),
                Times(b"tze ", 119),
                Text(b") YT $.\n"),
            ],
        )],
        reply: b"no h.mm 20 th2 P6 1\n",
        status: 1,
    },
    Case {
        name: "the letters UUA are over a list of 120 labels",
        files: &[(
            b"h.mm",
            &[
                Text(HEAD),
                Text(b"th2 $p term 0 $= ( "),
                Times(b"tze ", 120),
                Text(b") UUA $.\n"),
            ],
        )],
        reply: b"no h.mm 20 th2 P6 1\n",
        status: 1,
    },
    Case {
        name: "the letters YYT are over a list of 619 labels",
        files: &[(
            b"h.mm",
            &[
                Text(HEAD),
                Text(b"th2 $p term 0 $= ( "),
                Times(b"tze ", 619),
                Text(b") YYT $.\n"),
            ],
        )],
        reply: b"no h.mm 20 th2 P6 1\n",
        status: 1,
    },
    Case {
        name: "the letters UUUA are over a list of 620 labels",
        files: &[(
            b"h.mm",
            &[
                Text(HEAD),
                Text(b"th2 $p term 0 $= ( "),
                Times(b"tze ", 620),
                Text(b") UUUA $.\n"),
            ],
        )],
        reply: b"no h.mm 20 th2 P6 1\n",
        status: 1,
    },
];
