// What every wire is held to: the wires ascend, no two have the same source, output and target, and both ends exist.
// They are no closures: the definitions name them too, with what each rests on.
#[derive(Clone, Copy)]
pub(crate) enum Rule {
    Order,
    Apart,
    Names,
}
