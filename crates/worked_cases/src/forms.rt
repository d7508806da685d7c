//! Forms of text, by the recognizer and by the tables.
use grammar::{
    BLANKS, Re, Rule, Verdict, column_of, con_column, cons_column, expr_column, frac_column,
    gens_column, point_column,
};
use std::alloc::{AllocError, Global};
use std::process::Abort;
use std::test::Fail;

// Whether the text has the form with any blanks around it, by the recognizer.
fn column_alone(alloc: Global, rule: Rule, text: &[u8]) -> Result<Verdict, AllocError> {
    let form = Re::Named(rule);
    let with_blanks = Re::Then(&form, &BLANKS);
    column_of(alloc, &Re::Then(&BLANKS, &with_blanks), text)
}

// What the table of the form says, where it has one.
fn by_table(rule: Rule, text: &[u8]) -> Option<Verdict> {
    match rule {
        Rule::Expr => Some(expr_column(text)),
        Rule::Frac => Some(frac_column(text)),
        Rule::Con => Some(con_column(text)),
        Rule::Cons => Some(cons_column(text)),
        Rule::Point => Some(point_column(text)),
        Rule::Gens => Some(gens_column(text)),
        _ => None,
    }
}

// The recognizer and the form's table say the same of the text with blanks around it.
fn both_say(
    rt: &impl Abort,
    alloc: Global,
    rule: Rule,
    text: &[u8],
    verdict: Verdict,
) -> Result<(), Fail> {
    assert_eq!(rt; column_alone(alloc, rule, text)?, verdict);
    if let Some(by_table) = by_table(rule, text) {
        assert_eq!(rt; by_table, verdict);
    }
    Ok(())
}

// The texts that have the form.
fn accepts(rt: &impl Abort, alloc: Global, rule: Rule, texts: &[&[u8]]) -> Result<(), Fail> {
    for text in texts {
        both_say(rt, alloc, rule, text, Verdict::Accepted)?;
    }
    Ok(())
}

// The texts that are refused, with their columns.
fn refuses(
    rt: &impl Abort,
    alloc: Global,
    rule: Rule,
    texts: &[(&[u8], usize)],
) -> Result<(), Fail> {
    for (text, column) in texts {
        both_say(rt, alloc, rule, text, Verdict::RefusedAt(*column))?;
    }
    Ok(())
}

#[test]
fn tokens(rt: HostRuntime) -> Result<(), Fail> {
    let alloc = rt.alloc();
    let long = b"aaaaaaaaaaaaaaaaaaaaaaaaaaaaaaaa";
    let too_long = b"aaaaaaaaaaaaaaaaaaaaaaaaaaaaaaaaa";
    accepts(&rt, alloc, Rule::Nat, &[b"0", b"007", b" 5 "])?;
    refuses(&rt, alloc, Rule::Nat, &[(b"", 1), (b"12a", 3)])?;
    accepts(&rt, alloc, Rule::Name, &[b"a", b"a_1", long])?;
    refuses(
        &rt,
        alloc,
        Rule::Name,
        &[(b"A", 1), (b"_a", 1), (too_long, 33), (b"1a", 1)],
    )?;
    accepts(&rt, alloc, Rule::Var, &[b"A", b"A1", b"A10"])?;
    refuses(
        &rt,
        alloc,
        Rule::Var,
        &[(b"A0", 2), (b"A01", 2), (b"AB", 2), (b"a", 1)],
    )?;
    accepts(&rt, alloc, Rule::Vars, &[b"A", b"A, B1 ,C"])?;
    refuses(&rt, alloc, Rule::Vars, &[(b"A,", 3), (b"A B", 3)])?;
    accepts(&rt, alloc, Rule::Comment, &[b"#", b"# caf\xc3\xa9 \x00"])?;
    refuses(&rt, alloc, Rule::Comment, &[(b"x#", 1)])
}

#[test]
fn terms(rt: HostRuntime) -> Result<(), Fail> {
    let alloc = rt.alloc();
    accepts(&rt, alloc, Rule::Term, &[b"3*A", b"3 * A"])?;
    refuses(
        &rt,
        alloc,
        Rule::Term,
        &[(b"A*3", 2), (b"3*", 3), (b"3 A", 3), (b"*A", 1)],
    )?;
    accepts(&rt, alloc, Rule::Vterm, &[b"A", b"2*A"])?;
    refuses(&rt, alloc, Rule::Vterm, &[(b"2", 2)])?;
    accepts(&rt, alloc, Rule::Vexpr, &[b"0", b"0 ", b"A - B"])?;
    refuses(
        &rt,
        alloc,
        Rule::Vexpr,
        &[(b"0 + A", 3), (b"1", 2), (b"-0", 3)],
    )?;
    accepts(&rt, alloc, Rule::Vfrac, &[b"(0)/3", b"(A)/3"])?;
    refuses(&rt, alloc, Rule::Vfrac, &[(b"(1)/3", 3)])?;
    accepts(&rt, alloc, Rule::Gen, &[b"c((A)/2)", b"r(A)", b"l(0)"])?;
    refuses(
        &rt,
        alloc,
        Rule::Gen,
        &[(b"r((A)/2)", 3), (b"l(A)/2", 5), (b"q(A)", 1)],
    )
}

#[test]
fn expressions(rt: HostRuntime) -> Result<(), Fail> {
    let alloc = rt.alloc();
    accepts(
        &rt,
        alloc,
        Rule::Expr,
        &[b"0", b"A + 2*B - 3", b"-A", b"- 3 * A", b"\tA\t+\tB\t"],
    )?;
    refuses(
        &rt,
        alloc,
        Rule::Expr,
        &[
            (b"--A", 2),
            (b"+A", 1),
            (b"A +", 4),
            (b"A B", 3),
            (b"A + - B", 5),
            (b"3*A*2", 4),
            (b"A/2", 2),
            (b"A\x00", 2),
            (b"A\xc3", 2),
        ],
    )?;
    accepts(&rt, alloc, Rule::Frac, &[b"A", b"(A)/2", b"( A + 1 ) / 2"])?;
    refuses(
        &rt,
        alloc,
        Rule::Frac,
        &[(b"(A)", 4), (b"(A)/", 5), (b"A/2", 2), (b"((A))/2", 2)],
    )
}

#[test]
fn constraints(rt: HostRuntime) -> Result<(), Fail> {
    let alloc = rt.alloc();
    accepts(
        &rt,
        alloc,
        Rule::Con,
        &[b"A = B", b"A >= 0", b"A > 0", b"A < 0"],
    )?;
    refuses(
        &rt,
        alloc,
        Rule::Con,
        &[
            (b"A > = 0", 5),
            (b"A >", 4),
            (b"A <=", 5),
            (b"A == 0", 4),
            (b"A", 2),
            (b"0 = 0 = 0", 7),
            (b"A => 0", 4),
        ],
    )?;
    accepts(
        &rt,
        alloc,
        Rule::Cons,
        &[b"true", b"false", b" true ", b"A >= 0, B <= 1"],
    )?;
    refuses(
        &rt,
        alloc,
        Rule::Cons,
        &[
            (b"true, A = 0", 5),
            (b"tru", 4),
            (b"fals", 5),
            (b"A >= 0,,B >= 0", 8),
            (b"A >= 0,", 8),
            (b", A = 0", 1),
            (b"A = 0 true", 7),
            (b"", 1),
            (b" ", 2),
            (b"A = 0 # x", 7),
        ],
    )
}

#[test]
fn generators(rt: HostRuntime) -> Result<(), Fail> {
    let alloc = rt.alloc();
    accepts(
        &rt,
        alloc,
        Rule::Point,
        &[b"p(A)", b"p( A + B )", b"p((A)/2)", b"p(0)"],
    )?;
    refuses(
        &rt,
        alloc,
        Rule::Point,
        &[
            (b"p (A)", 2),
            (b"p(", 3),
            (b"p(1)", 4),
            (b"p(A,B)", 4),
            (b"p(A", 4),
            (b"c(A)", 1),
            (b"P(A)", 1),
        ],
    )?;
    accepts(&rt, alloc, Rule::Gens, &[b"none", b"p(A), r(B) ,l(A)"])?;
    refuses(
        &rt,
        alloc,
        Rule::Gens,
        &[
            (b"non", 4),
            (b"p(A) r(B)", 6),
            (b"none, p(A)", 5),
            (b"p(A),", 6),
            (b"", 1),
        ],
    )
}

#[test]
fn forms_of_a_caller(rt: HostRuntime) -> Result<(), Fail> {
    let alloc = rt.alloc();
    let word = Re::Word(b"add");
    let expr = Re::Named(Rule::Expr);
    let line = Re::Then(&word, &expr);
    assert_eq!(rt; column_of(alloc, &line, b"addA")?, Verdict::Accepted);
    assert_eq!(rt; column_of(alloc, &line, b"add")?, Verdict::RefusedAt(4));
    assert_eq!(rt; column_of(alloc, &line, b"addA ")?, Verdict::RefusedAt(6));
    Ok(())
}

// The pieces with so many blanks around each, all in one text.
fn spread(alloc: Global, pieces: &[&[u8]], blanks: u32) -> Result<Vec<u8>, Fail> {
    let mut text = Vec::new(alloc);
    for piece in pieces {
        text.extend_from_slice(piece)?;
        for _ in 0..blanks {
            text.push(b' ')?;
        }
    }
    Ok(text)
}

#[test]
fn long_runs_of_blanks(rt: HostRuntime) -> Result<(), Fail> {
    let constraints = spread(
        rt.alloc(),
        &[
            b"", b"-", b"3", b"*", b"A", b"+", b"B", b">=", b"0", b",", b"C", b"=", b"1",
        ],
        500,
    )?;
    accepts(&rt, rt.alloc(), Rule::Cons, &[&constraints])?;
    let generators = spread(
        rt.alloc(),
        &[
            b"", b"p(", b"(", b"A", b"-", b"B", b")", b"/", b"2", b")", b",", b"r(", b"A", b")",
        ],
        500,
    )?;
    accepts(&rt, rt.alloc(), Rule::Gens, &[&generators])
}
