//! The walk over an expression.
ghost use Rattle.std.specs.Prelude.{◌≡◌};
ghost use Rattle.sl_rules.specs.Looks.{IsLook, AreLooks};
ghost use Rattle.sl_syntax.specs.TreeView.{expr_of, exprs_of};

use crate::look::{Look, LookAll};
use crate::nodes::{
    Node, binary_look, call_look, index_look, inside_index, inside_library_call,
    inside_member_call, is_call_site, library_call_look, member_call_look, member_look, name_look,
    number_look, postfix_look, prefix_look, truth_look,
};
use crate::standings::{last_standing, part_standing, standing_before};
use sl_effect_order::order_matters;
use sl_expr_types::{appends, capped_sum, empty, pushed};
use sl_syntax::Expr;
use sl_typing::{Scope, Standing};

/// Looks at an expression that stands so, with so many sites before it. It takes no memory.
#[cycle(look)]
pub fn look_at(scope: &Scope, before: usize, standing: Standing, e: &Expr) -> Look
    ensures { IsLook scope.now before standing (expr_of e.now) result }
{
    let node = Node {
        before,
        standing,
        order_matters: order_matters(scope, e),
    };
    match e {
        Expr::Number { .. } => number_look(),
        Expr::Truth { .. } => truth_look(),
        Expr::Name(name) => name_look(scope, standing, name),
        Expr::Call {
            function,
            arguments,
        } => {
            let looks = look_at_all(scope, before, Standing::Plain, arguments);
            call_look(scope, function, arguments, &looks, node.order_matters)
        }
        Expr::LibraryCall {
            function,
            arguments,
        } => {
            let is_site = appends(function.name.as_slice(), arguments);
            let inside = inside_library_call(before, is_site);
            let last = last_standing(function.name.as_slice(), arguments);
            let looks = look_at_all(scope, inside, last, arguments);
            library_call_look(node, is_site, function, arguments, &looks)
        }
        Expr::Parentheses { inner, .. } => look_at(scope, before, Standing::Plain, inner),
        Expr::Prefix {
            operator,
            place,
            operand,
        } => {
            let own = look_at(scope, before, Standing::Plain, operand);
            prefix_look(*operator, *place, operand, own)
        }
        Expr::Binary {
            left,
            operator,
            place,
            right,
        } => {
            let first = look_at(scope, before, Standing::Plain, left);
            let between = capped_sum(before, first.sites);
            let second = look_at(scope, between, Standing::Plain, right);
            binary_look(*operator, *place, first, second, node.order_matters)
        }
        Expr::Postfix {
            operand,
            operator,
            place,
        } => {
            let own = look_at(scope, before, Standing::Plain, operand);
            postfix_look(operand, *operator, *place, own)
        }
        Expr::Index {
            object,
            place,
            index,
        } => {
            let own = look_at(scope, before, Standing::Plain, object);
            let inside = inside_index(before, own);
            let second = look_at(scope, inside, Standing::Plain, index);
            index_look(before, *place, own, second)
        }
        Expr::MemberCall {
            object,
            function,
            arguments,
        } => {
            let own = look_at(scope, before, Standing::Plain, object);
            let is_site = is_call_site(object, own.expr_type, function, arguments);
            let inside = inside_member_call(before, own, is_site);
            let looks = look_at_all(scope, inside, Standing::Plain, arguments);
            member_call_look(scope, node, object, own, function, arguments, &looks)
        }
        Expr::Member {
            object,
            selector,
            place,
            member,
        } => {
            let inner = part_standing(*selector, member.name.as_slice());
            let own = look_at(scope, before, inner, object);
            member_look(object, *selector, *place, member, own)
        }
    }
}

/// Looks at arguments, of which the last stands so, with so many sites before them. It takes no memory.
#[cycle(look)]
pub fn look_at_all(scope: &Scope, before: usize, last: Standing, xs: &[Expr]) -> LookAll
    ensures { AreLooks scope.now before last (exprs_of xs.now) result }
{
    let mut fault = None;
    let mut types = empty();
    let mut sites = 0;
    for (i, x) in xs.iter().enumerate() {
        let standing = standing_before(xs.len() - 1 - i, last);
        let look = look_at(scope, capped_sum(before, sites), standing, x);
        fault = fault.or(look.fault);
        types = pushed(types, look.expr_type);
        sites = capped_sum(sites, look.sites);
    }
    LookAll {
        fault,
        types,
        sites,
    }
}
