// A module and its copy.
use core_copies::copy_module;
use core_reader::read_module;
use std::test::Fail;
use test_support::holds;

// A module with every form of expression, of pattern and of constant, and with every kind of call.
fn every_form() -> &'static [u8] {
    b"module 'm' ['main'/0,'f'/2]
    attributes ['a' = -1, 'b' = $b, 'c' = \"c\", 'd' = {'d',[]}, 'e' = [1,'e'|{2}], 'f' = [\"f\",$f]]
'f'/2 = fun (A,B) ->
    case <A,B> of
        <1,$b> when 'true' -> {A,$b,\"c\",'d',-1}
        <\"c\",'d'> when call 'erlang':'=:='(A,B) -> [A,B]
        <{X,Y},[Z,1]> when 'true' -> [X,Y|Z]
        <[X|Y],Z = {W}> when 'true' -> primop 'match_fail'({X,Y,Z,W})
        <X,Y> when 'true' -> let <V,W> = <X,Y> in catch call 'm':'f'(V,W)
    end
'main'/0 = fun () ->
    do call 'ets':'new'('t',[])
    try apply 'f'/2(1,2) of <X> ->
        receive
            {Y,1} when 'true' -> Y
            Z when 'true' -> {X,Z}
        after 10 -> 'late'
    catch <C,R,S> -> primop 'raise'(S,R)
end"
}

#[test]
fn a_copied_module_is_the_same(rt: HostRuntime) -> Result<(), Fail> {
    let module = read_module(rt.alloc(), every_form())?;
    let copied = copy_module(rt.alloc(), &module)?;
    holds(copied == module, "a copy is the same")?;
    drop(module);
    let again = read_module(rt.alloc(), every_form())?;
    holds(copied == again, "a copy stays the same")
}
