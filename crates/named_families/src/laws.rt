ghost use Rattle.named_families.specs.Closing.{WkCloses, BgwCloses, WpCloses};

/// A law: what `wk_cut` and `wk` store meets the five relations in all places below N, for every N with 2N + 1 at most dim;
/// so a check of these places never finds that they differ.
pub fn wk_closes()
    ensures { WkCloses }
{
    airy_math::below_dim();
    relation_law::wk_relations();
    airy_relations::no_difference();
}

/// A law: the same of `bgw_cut` and `bgw`.
pub fn bgw_closes()
    ensures { BgwCloses }
{
    airy_math::below_dim();
    relation_law::bgw_relations();
    airy_relations::no_difference();
}

/// A law: the same of `wp_cut` and `wp`, for every N with 2N + 1 at most dim and at most the greatest exponent.
pub fn wp_closes()
    ensures { WpCloses }
{
    airy_curve::curve_closes();
}
