//! The laws.

ghost use Rattle.adr_law_revived.specs.Revived.{OneObjectMore, OtherObjectsStay, RevivedShows, StandsAsGiven, ValuesAreThose};

/// Behind a revival there is one live object more, the new one under its GUID, with the class that the image shows and the name
/// that is given (*more*), and every other GUID names the live object that it named, with its class and its name (*others*).
/// The new one stands under the parent by the name that are given, and the objects that name its GUID as parent stand under it
/// again (*stands*). It shows the values that the image shows, and every other object those that it showed (*values*).
#[tactic(none)]
pub fn one_object_comes()
    ensures more { OneObjectMore }
    ensures others { OtherObjectsStay }
    ensures stands { StandsAsGiven }
    ensures values { ValuesAreThose }
{}

/// The directory behind a revival has one entry more: that of the GUID, with the class and the values that the image shows, under
/// the parent and by the name that are given, and with the links of the image that came with it. Every other entry keeps its class,
/// its values and its links; to these come only such as lead to the GUID. The objects that name the GUID as parent are placed under it.
#[tactic(none)]
pub fn revival_keeps_the_rest()
    ensures { RevivedShows }
{}
