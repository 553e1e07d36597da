//! What effects cost.
ghost use Rattle.mh_laws.specs.Layers.{CostsExist, CostsAgree, LayeringsAreTold};

/// The law that where the effects of a service have a layering, so that none causes itself, there are costs
/// that are just what effects come to; that there is but one such cost for each active effect; and that a
/// layering can be told.
pub fn costs_exist()
    ensures exist { CostsExist }
    ensures agree { CostsAgree }
    ensures told { LayeringsAreTold }
{}
