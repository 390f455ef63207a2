ghost use Rattle.std.specs.Prelude.{◌≡◌, ℕ, List, Ok, Some};
ghost use Rattle.node_config.specs.Addresses.{IsAddress, address_of, address_text};
ghost use Rattle.node_config.specs.Configs.{configured};
ghost use Rattle.node_config.specs.Outcomes.{Fits};
ghost use Rattle.node_config.specs.declared.config.Config.{Config as ConfigView};
ghost use Rattle.outside.specs.declared.device.Address.{Address as AddressView};

/// Each address but those of port 0 has one text, which is read as it.
pub fn addresses_have_one_text()
    ensures reads_back { (a : AddressView) → IsAddress a → address_of (address_text a) ≡ Some a }
    ensures one_text { (text : List ℕ) (a : AddressView) → address_of text ≡ Some a → IsAddress a × (text ≡ address_text a) }
{}

/// The configuration of a text is in its ranges.
pub fn configurations_fit()
    ensures { (me : ℕ) (text : List ℕ) (config : ConfigView) → configured me text ≡ Ok config → Fits me config }
{}
