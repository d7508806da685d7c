ghost use Rattle.std.specs.Prelude.{◌≡◌, false};
ghost use Rattle.grammar.specs.Grammar.{nat, name, var, term, expr, frac, vterm, vexpr, vfrac, con, cons, point, gen, gens, vars, comment};
ghost use Rattle.grammar.specs.Shape.{form_of, is_named, shape};

use crate::forms;
use crate::re::Re;
use crate::rule::Rule;

// The form that a name stands for.
pub fn body_of(rule: Rule) -> Re<'static>
    ensures shape { shape result ≡ form_of rule }
    ensures unnamed { is_named result ≡ false }
{
    match rule {
        Rule::Nat => nat_body(),
        Rule::Name => name_body(),
        Rule::Var => var_body(),
        Rule::Term => term_body(),
        Rule::Expr => expr_body(),
        Rule::Frac => frac_body(),
        Rule::Vterm => vterm_body(),
        Rule::Vexpr => vexpr_body(),
        Rule::Vfrac => vfrac_body(),
        Rule::Con => con_body(),
        Rule::Cons => cons_body(),
        Rule::Point => point_body(),
        Rule::Gen => gen_body(),
        Rule::Gens => gens_body(),
        Rule::Vars => vars_body(),
        Rule::Comment => comment_body(),
    }
}

fn nat_body() -> Re<'static>
    ensures shape { shape result ≡ nat }
    ensures unnamed { is_named result ≡ false }
{
    forms::NAT
}

fn name_body() -> Re<'static>
    ensures shape { shape result ≡ name }
    ensures unnamed { is_named result ≡ false }
{
    forms::NAME
}

fn var_body() -> Re<'static>
    ensures shape { shape result ≡ var }
    ensures unnamed { is_named result ≡ false }
{
    forms::VAR
}

fn term_body() -> Re<'static>
    ensures shape { shape result ≡ term }
    ensures unnamed { is_named result ≡ false }
{
    forms::TERM
}

#[tactic(auto, unfolding(crate::specs::Grammar::expr))]
fn expr_body() -> Re<'static>
    ensures shape { shape result ≡ expr }
    ensures unnamed { is_named result ≡ false }
{
    forms::EXPR
}

#[tactic(auto, unfolding(crate::specs::Grammar::frac))]
fn frac_body() -> Re<'static>
    ensures shape { shape result ≡ frac }
    ensures unnamed { is_named result ≡ false }
{
    forms::FRAC
}

fn vterm_body() -> Re<'static>
    ensures shape { shape result ≡ vterm }
    ensures unnamed { is_named result ≡ false }
{
    forms::VTERM
}

#[tactic(auto, unfolding(crate::specs::Grammar::vexpr))]
fn vexpr_body() -> Re<'static>
    ensures shape { shape result ≡ vexpr }
    ensures unnamed { is_named result ≡ false }
{
    forms::VEXPR
}

#[tactic(auto, unfolding(crate::specs::Grammar::vfrac))]
fn vfrac_body() -> Re<'static>
    ensures shape { shape result ≡ vfrac }
    ensures unnamed { is_named result ≡ false }
{
    forms::VFRAC
}

#[tactic(auto, unfolding(crate::specs::Grammar::con))]
fn con_body() -> Re<'static>
    ensures shape { shape result ≡ con }
    ensures unnamed { is_named result ≡ false }
{
    forms::CON
}

#[tactic(auto, unfolding(crate::specs::Grammar::cons))]
fn cons_body() -> Re<'static>
    ensures shape { shape result ≡ cons }
    ensures unnamed { is_named result ≡ false }
{
    forms::CONS
}

#[tactic(auto, unfolding(crate::specs::Grammar::point))]
fn point_body() -> Re<'static>
    ensures shape { shape result ≡ point }
    ensures unnamed { is_named result ≡ false }
{
    forms::POINT
}

fn gen_body() -> Re<'static>
    ensures shape { shape result ≡ gen }
    ensures unnamed { is_named result ≡ false }
{
    forms::GEN
}

#[tactic(auto, unfolding(crate::specs::Grammar::gens))]
fn gens_body() -> Re<'static>
    ensures shape { shape result ≡ gens }
    ensures unnamed { is_named result ≡ false }
{
    forms::GENS
}

fn vars_body() -> Re<'static>
    ensures shape { shape result ≡ vars }
    ensures unnamed { is_named result ≡ false }
{
    forms::VARS
}

fn comment_body() -> Re<'static>
    ensures shape { shape result ≡ comment }
    ensures unnamed { is_named result ≡ false }
{
    forms::COMMENT
}
