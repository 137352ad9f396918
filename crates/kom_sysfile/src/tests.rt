use crate::{SystemRead, read_system};
use kom_make::make_system;
use std::test::Fail;

/// The rule that a text breaks, with the line and the column; `None` where it breaks none, or is too
/// long.
fn refusal(rt: &HostRuntime, text: &[u8]) -> Option<(u8, u32, u32)> {
    if text.len() > 1048576 {
        return None;
    }
    match read_system(rt.alloc(), text) {
        SystemRead::Refused { rule, line, column } => Some((rule, line, column)),
        SystemRead::System(_) => None,
        SystemRead::Memory => Some((0, 0, 0)),
    }
}

#[test]
fn names_the_least_broken_rule(rt: HostRuntime) {
    let cases: [(u8, u32, u32, &[u8]); 69] = [
        (2, 1, 11, b"system 1; @"),
        (
            3,
            1,
            46,
            b"system 1; component M { on start as h { fail 9223372036854775808; } } root M();",
        ),
        (4, 1, 8, b"system 3;"),
        (4, 1, 1, b""),
        (5, 1, 21, b"system 1; component { }"),
        (5, 2, 6, b"system 1;\nroot ;"),
        (
            6,
            1,
            28,
            b"system 1; event E(); event E(); component M { } root M();",
        ),
        (
            6,
            1,
            17,
            b"system 1; event Message(); component M { } root M();",
        ),
        (
            6,
            1,
            16,
            b"system 1; port Timer { } component M { } root M();",
        ),
        (
            6,
            1,
            27,
            b"system 1; port P { } port P { } component M { } root M();",
        ),
        (
            6,
            1,
            37,
            b"system 1; component M { } component M { } root M();",
        ),
        (
            6,
            1,
            37,
            b"system 1; component M { var x; slot x; } root M();",
        ),
        (
            6,
            1,
            37,
            b"system 1; component M { slot x; var x; } root M();",
        ),
        (
            6,
            1,
            45,
            b"system 1; component M { on start as h { let h = 1; } } root M();",
        ),
        (
            7,
            1,
            21,
            b"system 1; event E : F(); component M { } root M();",
        ),
        (
            7,
            1,
            25,
            b"system 1; port P { plus F; } component M { } root M();",
        ),
        (
            7,
            1,
            41,
            b"system 1; port P { minus Message; minus F; } component M { } root M();",
        ),
        (
            7,
            1,
            38,
            b"system 1; component M { provides p : P; } root M();",
        ),
        (
            7,
            1,
            34,
            b"system 1; component M { slot s : N(1); } root M();",
        ),
        (
            7,
            1,
            34,
            b"system 1; component M { slot s : N(1); channel k : Timer from s.q to free; } root M();",
        ),
        (
            7,
            1,
            63,
            b"system 1; component M { slot s; channel k : Timer from s.q to t.q; } root M();",
        ),
        (
            7,
            1,
            80,
            b"system 1; component N { } component M { slot s : N(); channel k : Timer from s.q to free; } root M();",
        ),
        (
            7,
            1,
            37,
            b"system 1; component M { channel k : T from free to free; } root M();",
        ),
        (
            7,
            1,
            53,
            b"system 1; component M { channel k : Timer from self.t to free; } root M();",
        ),
        (
            7,
            1,
            72,
            b"system 1; component M { channel k : Timer from free to free minus when E.x == 1; } root M();",
        ),
        (
            7,
            1,
            48,
            b"system 1; component M { requires t : Timer; on E at t as h { } } root M();",
        ),
        (
            8,
            1,
            21,
            b"system 1; event E : Timeout(); component M { } root M();",
        ),
        (
            11,
            1,
            376,
            b"system 1; component M { requires p0 : Timer; requires p1 : Timer; requires p2 : Timer; requires p3 : Timer; requires p4 : Timer; requires p5 : Timer; requires p6 : Timer; requires p7 : Timer; requires p8 : Timer; requires p9 : Timer; requires p10 : Timer; requires p11 : Timer; requires p12 : Timer; requires p13 : Timer; requires p14 : Timer; requires p15 : Timer; requires q : Timer; } root M();",
        ),
        (
            11,
            1,
            340,
            b"system 1; component M { slot p0; slot p1; slot p2; slot p3; slot p4; slot p5; slot p6; slot p7; slot p8; slot p9; slot p10; slot p11; slot p12; slot p13; slot p14; slot p15; slot p16; slot p17; slot p18; slot p19; slot p20; slot p21; slot p22; slot p23; slot p24; slot p25; slot p26; slot p27; slot p28; slot p29; slot p30; slot p31; slot q; } root M();",
        ),
        (12, 1, 26, b"system 1; component M { }"),
        (
            12,
            1,
            37,
            b"system 1; component M { } root M(); root M(); root M();",
        ),
        (13, 1, 32, b"system 1; component M { } root M(1);"),
        (
            13,
            1,
            70,
            b"system 1; component N { on init(a) as h { } } component M { slot s : N(); } root M();",
        ),
        (
            16,
            1,
            64,
            b"system 1; component M { slot s; channel k : Timer from free to s.q; } root M();",
        ),
        (
            17,
            1,
            75,
            b"system 1; component M { requires n : Network; channel k : Timer from self.n to free; } root M();",
        ),
        (
            17,
            1,
            110,
            b"system 1; component N { requires n : Network; } component M { slot s : N(); channel k : Timer from free to s.n; } root M();",
        ),
        (
            18,
            1,
            73,
            b"system 1; component M { provides t : Timer; channel k : Timer from self.t to free; } root M();",
        ),
        (
            18,
            1,
            104,
            b"system 1; component N { requires n : Network; } component M { slot s : N(); channel k : Network from s.n to free; } root M();",
        ),
        (
            21,
            1,
            57,
            b"system 1; component M { on init() as a { } on init() as b { } on init() as d { } } root M();",
        ),
        (
            22,
            1,
            92,
            b"system 1; component M { on init() as a { } on start as h { subscribe h; if 1 { unsubscribe a; } } } root M();",
        ),
        (
            25,
            1,
            67,
            b"system 1; component M { slot s; on start as h { create s : M from state; } } root M();",
        ),
        (
            26,
            1,
            54,
            b"system 1; component M { on start as h { let x = 1 + !it.a; } } root M();",
        ),
        (
            27,
            1,
            56,
            b"system 1; component M { on start as h { fail 899; fail 900; } } root M();",
        ),
        (
            28,
            1,
            120,
            b"system 1; component M { requires n : Network; channel k : Timer from free to free; on start as h { plug k.plus at self.n; } } root M();",
        ),
        (
            28,
            1,
            142,
            b"system 1; component M { requires n : Timer; channel k : Timer from free to free; on start as h { plug k.plus at self.n; plug k.minus at self.n; } } root M();",
        ),
        (
            30,
            1,
            41,
            b"system 1; component M { on start as h { answer Timeout(1); } } root M();",
        ),
        (
            32,
            1,
            41,
            b"system 2; component M { on start as h { escalate; } } root M();",
        ),
        (
            31,
            1,
            234,
            b"system 2; component M { channel k : Network from free to free minus when Message.src == 1 && Message.src == 1 && Message.src == 1 && Message.src == 1 && Message.src == 1 && Message.src == 1 && Message.src == 1 && Message.src == 1 && Message.src == 2; } root M();",
        ),
        (
            19,
            1,
            71,
            b"system 1; component M { channel k : Timer from free to free plus when SetTimer.id == 1; } root M();",
        ),
        (
            19,
            1,
            130,
            b"system 2; event E : Message(a); port P { minus E; } component M { channel k : P from free to free minus when Message.src == 1 && Timeout.id == 1; } root M();",
        ),
        (
            20,
            1,
            73,
            b"system 1; component M { requires t : Timer; on Timeout at t as g { } on SetTimer at t as h { } } root M();",
        ),
        (
            20,
            1,
            48,
            b"system 1; component M { provides t : Timer; on Timeout at t as h { } } root M();",
        ),
        (
            23,
            1,
            69,
            b"system 1; component M { requires t : Timer; on start as h { trigger Timeout(1) at t; } } root M();",
        ),
        (
            23,
            1,
            128,
            b"system 1; event E : Message(); port P { minus E; } component M { requires p : P; on start as h { trigger E(1, 2) at p; trigger Message(1, 2) at p; } } root M();",
        ),
        (
            23,
            1,
            77,
            b"system 1; component M { requires n : Network; on Message at n as h { answer Timeout(1); } } root M();",
        ),
        (
            24,
            1,
            69,
            b"system 1; component M { requires t : Timer; on start as h { trigger SetTimer(1) at t; } } root M();",
        ),
        (
            24,
            1,
            112,
            b"system 1; event E : Message(a); component M { requires n : Network; on E at n as h { answer E(1, 2, 3); answer E(1, 2); } } root M();",
        ),
        (
            29,
            1,
            90,
            b"system 1; component M { requires n : Network; on Message at n as h { let x = it.src + it.id; } } root M();",
        ),
        (
            29,
            1,
            111,
            b"system 2; event E : Message(a); component M { channel k : Network from free to free plus when E.dst == 1 && E.b == 1; } root M();",
        ),
        (
            14,
            1,
            21,
            b"system 1; component M { slot s : M(); } root M();",
        ),
        (
            14,
            1,
            51,
            b"system 1; component L { slot s : A(); } component A { slot t; slot s : B(); } component B { slot s : A(); } root L();",
        ),
        (
            15,
            1,
            487,
            b"system 1; component Z { } component A { slot s : Z(); } component B { slot s : A(); } component C { slot s : B(); } component D { slot s : C(); } component E { slot s : D(); } component F { slot s : E(); } component G { slot s : F(); } component H { slot s : G(); } component I { slot s : H(); } component J { slot s : I(); } component K { slot s : J(); } component L { slot s : K(); } component M { slot s : L(); } component N { slot s : M(); } component O { slot s : N(); } component P { slot s : O(); } component Q { slot s : P(); } root Q();",
        ),
        (
            15,
            1,
            369,
            b"system 1; component D { } component C { slot s0 : D(); slot s1 : D(); slot s2 : D(); slot s3 : D(); slot s4 : D(); slot s5 : D(); slot s6 : D(); slot s7 : D(); slot s8 : D(); slot s9 : D(); } component B { slot s0 : C(); slot s1 : C(); slot s2 : C(); slot s3 : C(); slot s4 : C(); slot s5 : C(); slot s6 : C(); slot s7 : C(); slot s8 : C(); slot s9 : C(); } component A { slot s0 : B(); slot s1 : B(); slot s2 : B(); slot s3 : B(); slot s4 : B(); slot s5 : B(); slot s6 : B(); slot s7 : B(); slot s8 : B(); slot s9 : B(); } root A();",
        ),
        (
            15,
            1,
            1275,
            b"system 1; component B { channel k0 : Timer from free to free; channel k1 : Timer from free to free; channel k2 : Timer from free to free; channel k3 : Timer from free to free; channel k4 : Timer from free to free; channel k5 : Timer from free to free; channel k6 : Timer from free to free; channel k7 : Timer from free to free; channel k8 : Timer from free to free; channel k9 : Timer from free to free; channel k10 : Timer from free to free; channel k11 : Timer from free to free; channel k12 : Timer from free to free; channel k13 : Timer from free to free; channel k14 : Timer from free to free; channel k15 : Timer from free to free; channel k16 : Timer from free to free; channel k17 : Timer from free to free; channel k18 : Timer from free to free; channel k19 : Timer from free to free; channel k20 : Timer from free to free; channel k21 : Timer from free to free; channel k22 : Timer from free to free; channel k23 : Timer from free to free; channel k24 : Timer from free to free; channel k25 : Timer from free to free; channel k26 : Timer from free to free; channel k27 : Timer from free to free; channel k28 : Timer from free to free; channel k29 : Timer from free to free; channel k30 : Timer from free to free; channel k31 : Timer from free to free; } component A { slot s0 : B(); slot s1 : B(); slot s2 : B(); slot s3 : B(); slot s4 : B(); slot s5 : B(); slot s6 : B(); slot s7 : B(); slot s8 : B(); slot s9 : B(); slot s10 : B(); slot s11 : B(); slot s12 : B(); slot s13 : B(); slot s14 : B(); slot s15 : B(); slot s16 : B(); slot s17 : B(); slot s18 : B(); slot s19 : B(); slot s20 : B(); slot s21 : B(); slot s22 : B(); slot s23 : B(); slot s24 : B(); slot s25 : B(); slot s26 : B(); slot s27 : B(); slot s28 : B(); slot s29 : B(); slot s30 : B(); slot t : A2(); } component A2 { channel k0 : Timer from free to free; channel k1 : Timer from free to free; channel k2 : Timer from free to free; channel k3 : Timer from free to free; channel k4 : Timer from free to free; channel k5 : Timer from free to free; channel k6 : Timer from free to free; channel k7 : Timer from free to free; channel k8 : Timer from free to free; } root A();",
        ),
        (
            9,
            1,
            17,
            b"system 1; event E : E(); component M { } root M();",
        ),
        (
            9,
            1,
            32,
            b"system 1; event A : B(); event B : C(); event C : B(); component M { } root M();",
        ),
        (
            10,
            1,
            17,
            b"system 1; event E(a, b, c, d, e, f, g, h, i); component M { } root M();",
        ),
        (
            10,
            1,
            32,
            b"system 1; event E(a, b); event F : E(b); component M { } root M();",
        ),
        (
            10,
            1,
            17,
            b"system 1; event G : F(g, h, i); event F : E(d, e, f); event E : Message(a); component M { } root M();",
        ),
    ];
    for (rule, line, column, text) in cases {
        assert_eq!(rt; refusal(&rt, text), Some((rule, line, column)));
    }
}

#[test]
fn accepts_what_breaks_no_rule(rt: HostRuntime) {
    let cases: [&[u8]; 4] = [
        b"system 1; component M { } root M();",
        b"system 2; component Timer { } root Timer();",
        b"system 1; component M { on start as h { if 1 { let x = 1; } else { let x = 2; } } } root M();",
        b"system 1; component M { requires t : Timer; on Timeout at t as h { } } root M();",
    ];
    for text in cases {
        assert_eq!(rt; refusal(&rt, text), None);
    }
}

#[test]
fn accepts_what_is_generated(rt: HostRuntime) -> Result<(), Fail> {
    let smallest = make_system(rt.alloc(), 1)?;
    assert_eq!(rt; refusal(&rt, smallest.as_slice()), None);
    let largest = make_system(rt.alloc(), 30)?;
    assert_eq!(rt; refusal(&rt, largest.as_slice()), None);
    Ok(())
}
